// Columns of strings.
mod texts;
