// Columns of trees.
mod forests;
mod grove;
mod layouts;
mod lines;
mod refused;
mod texts;
mod worked;
