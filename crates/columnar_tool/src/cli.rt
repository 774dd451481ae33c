//! The command line of the program.
ghost use Rattle.std.specs.Prelude.{◌≡◌, ◌≢◌, ◌⊎◌, ◌≤◌, false, IfOk, IfErr};
ghost use Rattle.std.specs.Io.KnownBytes.{Keeps};
ghost use Rattle.columnar_tool.specs.Uses.{Ends, Lists, MakesOf, ShowsFile, use_of, use_of_three, use_of_two, use_of_word};

use crate::cat::{Stop, cat_bytes, print_head};
use crate::choice::{Unchosen, choose};
use crate::file::{Wanted, fault_line, file_bytes, test_bytes};
use crate::flags::{Flags, NONE, flags_of, names_after};
use crate::help::{HELP, USAGE, VERSION};
use crate::kind::type_of;
use crate::make::make_rows;
use crate::range::{ALL, Span, span_of};
use crate::slices::print_slices;
use crate::stores::{cat_stores, test_stores};
use crate::table::show_table;
use crate::told::{Failure, cannot_read, no_memory, no_output, print, say};
use columnar_core::writer::WriteBytes;
use columnar_json::names::field_names;
use columnar_json::view::{Form, View};
use columnar_schema::typed::Type;
use columnar_syntax::schema::Bounds;
use std::alloc::Global;
use std::io::{BufWriter, Read, Write};
use std::rt::Files;

// What to do with the files.
#[derive(Clone, Copy, PartialEq, Drop)]
enum Task {
    // Write whether each is accepted.
    Test(Wanted),
    // Print their rows.
    Cat,
}

/// Does what the arguments ask for: the page `HELP` says what that is. Returns the exit status: 0 if all went well; 1 if
/// a file is not accepted or cannot be read, if a row has no text, or if memory or the output fails; 2 if the arguments
/// are no use of the program or the text is no type.
pub fn run_words<R: Files + AllocGlobal, I: Read, O: Write, E: Write>(
    rt: &R,
    alloc: Global,
    words: &[String],
    input: &mut I,
    out: &mut O,
    err: &mut E,
) -> u8
    ensures { Ends (use_of words.now) (I.remaining input.old) result (O.contents out.old) (O.contents out.new) }
{
    match words {
        [] => say(err, HELP.trim_end(), 2),
        [word] => one_word(word, input, out, err),
        [verb, word] => two_words(rt, alloc, verb, word, &words[1..], input, out, err),
        [verb, flag, word] => {
            three_words(rt, alloc, verb, flag, word, &words[1..], input, out, err)
        }
        [verb, rest @ ..] => read_files(rt, alloc, verb.as_str(), rest, out, err),
    }
}

// Does what a single word asks for.
fn one_word<I: Read, O: WriteBytes, E: Write>(
    word: &String,
    _input: &mut I,
    out: &mut O,
    err: &mut E,
) -> u8
    ensures { Ends (use_of_word word.now) (I.remaining _input.old) result (O.contents out.old) (O.contents out.new) }
{
    match word.as_str() {
        "--help" => print(out, HELP, err),
        "--version" => print(out, VERSION, err),
        _ => say(err, USAGE, 2),
    }
}

// Does what two words ask for, the second a type or a file. `rest` are the words after the first.
fn two_words<R: Files + AllocGlobal, I: Read, O: Write, E: Write>(
    rt: &R,
    alloc: Global,
    verb: &String,
    word: &String,
    rest: &[String],
    input: &mut I,
    out: &mut O,
    err: &mut E,
) -> u8
    ensures { Ends (use_of_two verb.now word.now) (I.remaining input.old) result (O.contents out.old) (O.contents out.new) }
{
    match verb.as_str() {
        "slices" => list_slices(rt, alloc, word.as_str(), Bounds::Unaries, out, err),
        "table" => show_file(rt, alloc, word.as_str(), out, err),
        "make" => make_of_text(rt, alloc, word.as_str(), Bounds::Unaries, input, out, err),
        other => read_files(rt, alloc, other, rest, out, err),
    }
}

// Does what three words ask for. `rest` are the words after the first.
fn three_words<R: Files + AllocGlobal, I: Read, O: Write, E: Write>(
    rt: &R,
    alloc: Global,
    verb: &String,
    flag: &String,
    word: &String,
    rest: &[String],
    input: &mut I,
    out: &mut O,
    err: &mut E,
) -> u8
    ensures { Ends (use_of_three verb.now flag.now word.now) (I.remaining input.old) result (O.contents out.old) (O.contents out.new) }
{
    if verb.as_str() == "slices" && flag.as_str() == "--rust" {
        list_slices(rt, alloc, word.as_str(), Bounds::Words, out, err)
    } else if verb.as_str() == "make" && flag.as_str() == "--rust" {
        make_of_text(rt, alloc, word.as_str(), Bounds::Words, input, out, err)
    } else {
        read_files(rt, alloc, verb.as_str(), rest, out, err)
    }
}

// Prints the slices of the type that this word names.
fn list_slices<R: Files + AllocGlobal, O: WriteBytes, E: Write>(
    rt: &R,
    alloc: Global,
    text: &str,
    lists: Bounds,
    out: &mut O,
    err: &mut E,
) -> u8
    ensures { Lists lists text.now result (O.contents out.old) (O.contents out.new) }
{
    match type_of(rt, alloc, text, lists, err) {
        Ok(kind) => print_slices(alloc, &kind, out, err),
        Err(status) => status,
    }
}

// Prints the store of the type that this word names, which the lines of the input make.
fn make_of_text<R: Files + AllocGlobal, I: Read, O: WriteBytes, E: Write>(
    rt: &R,
    alloc: Global,
    text: &str,
    lists: Bounds,
    input: &mut I,
    out: &mut O,
    err: &mut E,
) -> u8
    ensures { MakesOf lists text.now (I.remaining input.old) result (O.contents out.old) (O.contents out.new) }
{
    match type_of(rt, alloc, text, lists, err) {
        Ok(kind) => make_rows(alloc, &kind, input, out, err),
        Err(status) => status,
    }
}

// Shows the table of a file.
fn show_file<R: Files + AllocGlobal, O: WriteBytes, E: Write>(
    rt: &R,
    alloc: Global,
    path: &str,
    out: &mut O,
    err: &mut E,
) -> u8
    ensures { ShowsFile result (O.contents out.old) (O.contents out.new) }
{
    match file_bytes(rt, path) {
        Ok(bytes) => show_table(alloc, bytes.as_slice(), out, err),
        Err(Failure::Memory) => no_memory(err),
        Err(_) => cannot_read(path, err),
    }
}

// What the words after the task ask for.
#[derive(Clone, Copy)]
struct Wish<'a> {
    flags: Flags,
    // The names of the chosen fields, with commas between them.
    fields: Option<&'a str>,
    // The text of the type.
    kind: &'a str,
    paths: &'a [String],
    span: Span,
}

// Does a task with the files that the words after the task name.
fn read_files<R: Files + AllocGlobal, O: Write, E: Write>(
    rt: &R,
    alloc: Global,
    verb: &str,
    words: &[String],
    out: &mut O,
    err: &mut E,
) -> u8
    ensures { result ≡ 2 → Keeps (O.contents out.old) (O.contents out.new) }
{
    let Some(task) = task_of(verb) else {
        return say(err, USAGE, 2);
    };
    let Some(wish) = wish_of(task, words) else {
        return say(err, USAGE, 2);
    };
    match type_of(rt, alloc, wish.kind, wish.flags.lists, err) {
        Ok(kind) => match task {
            Task::Test(wanted) => {
                test_files(
                    rt,
                    alloc,
                    &kind,
                    wanted,
                    wish.flags.stores,
                    wish.paths,
                    out,
                    err,
                )
            }
            Task::Cat => cat_fields(rt, alloc, &kind, &wish, out, err),
        },
        Err(status) => status,
    }
}

// Reads the words after the task: flags, a type, files, perhaps a range, and flags again.
fn wish_of(task: Task, words: &[String]) -> Option<Wish<'_>> {
    let (before, rest) = flags_of(words, NONE);
    let (places, after) = until_flag(rest);
    let (flags, unread) = flags_of(after, before);
    match places {
        [kind, files @ ..] if !files.is_empty() && unread.is_empty() => {
            let (span, paths) = span_and_files(task, files);
            let kind = kind.as_str();
            let fields = names_after(words);
            let wish = Wish {
                flags,
                fields,
                kind,
                paths,
                span,
            };
            if is_use(task, &wish) {
                Some(wish)
            } else {
                None
            }
        }
        _ => None,
    }
}

// Splits the words before the first flag.
fn until_flag(words: &[String]) -> (&[String], &[String]) {
    for i in 0..words.len() {
        if words[i].as_str().starts_with("--") {
            return words.split_at(i);
        }
    }
    (words, &[])
}

// Returns whether the flags and the range fit together, and the task.
fn is_use(task: Task, wish: &Wish<'_>) -> bool {
    let flags = wish.flags;
    let for_cat = flags.json || flags.csv || flags.fields;
    let has_range = wish.span != ALL;
    !(flags.stores && has_range)
        && !(flags.json && flags.csv)
        && !flags.names_next
        && (task == Task::Cat || !for_cat)
}

fn task_of(verb: &str) -> Option<Task> {
    match verb {
        "check" => Some(Task::Test(Wanted::Verdict)),
        "rows" => Some(Task::Test(Wanted::Rows)),
        "cat" => Some(Task::Cat),
        _ => None,
    }
}

// Returns the range of rows after a single file, and the files.
fn span_and_files(task: Task, files: &[String]) -> (Span, &[String]) {
    match files {
        [_, range] if task == Task::Cat => match span_of(range.as_str()) {
            Some(span) => (span, &files[..1]),
            None => (ALL, files),
        },
        _ => (ALL, files),
    }
}

// Tests the files in order. It reports a file that cannot be read, and continues with the others.
fn test_files<R: Files + AllocGlobal, O: Write, E: Write>(
    rt: &R,
    alloc: Global,
    kind: &Type,
    wanted: Wanted,
    stores: bool,
    paths: &[String],
    out: &mut O,
    err: &mut E,
) -> u8
    ensures { result ≤ 1 }
{
    let mut status = 0;
    for path in paths {
        match test_file(rt, alloc, kind, wanted, stores, path.as_str(), out) {
            Ok(true) => {}
            Ok(false) => status = 1,
            Err(Failure::Input) => status = cannot_read(path.as_str(), err),
            Err(Failure::Memory) => return no_memory(err),
            Err(Failure::Output) => return no_output(err),
        }
    }
    status
}

// Tests a file, or each of the stores in it. Returns whether all are accepted.
fn test_file<R: Files + AllocGlobal, O: WriteBytes>(
    rt: &R,
    alloc: Global,
    kind: &Type,
    wanted: Wanted,
    stores: bool,
    path: &str,
    out: &mut O,
) -> Result<bool, Failure> {
    let bytes = file_bytes(rt, path)?;
    if stores {
        test_stores(alloc, kind, wanted, path, bytes.as_slice(), out)
    } else {
        test_bytes(alloc, kind, wanted, path, bytes.as_slice(), out)
    }
}

// Prints the rows of the files, or the chosen fields of them.
fn cat_fields<R: Files + AllocGlobal, O: Write, E: Write>(
    rt: &R,
    alloc: Global,
    kind: &Type,
    wish: &Wish<'_>,
    out: &mut O,
    err: &mut E,
) -> u8
    ensures { result ≡ 2 → Keeps (O.contents out.old) (O.contents out.new) }
{
    let form = if wish.flags.csv {
        Form::Csv
    } else {
        Form::Json
    };
    let Some(text) = wish.fields else {
        let view = View { form, fields: None };
        return cat_files(rt, alloc, kind, &view, wish, out, err);
    };
    let Ok(fields) = field_names(alloc, kind) else {
        return no_memory(err);
    };
    match choose(alloc, text, fields.as_slice()) {
        Ok(names) => {
            let fields = Some(names.as_slice());
            cat_files(rt, alloc, kind, &View { form, fields }, wish, out, err)
        }
        Err(why) => tell_unchosen(why, err),
    }
}

// Writes why no fields were chosen, and returns the status: 1 if an allocation failed, 2 otherwise.
fn tell_unchosen<E: Write>(why: Unchosen<'_>, err: &mut E) -> u8 {
    let _written = match why {
        Unchosen::Memory => return no_memory(err),
        Unchosen::Unknown(name) => writeln!(err, "no field: the type has no field `{name}`"),
        Unchosen::Twice(name) => writeln!(err, "no field: `{name}` stands twice"),
    };
    2
}

// Prints the rows of the files in order, up to the first failure.
fn cat_files<R: Files + AllocGlobal, O: Write, E: Write>(
    rt: &R,
    alloc: Global,
    kind: &Type,
    view: &View<'_>,
    wish: &Wish<'_>,
    out: &mut O,
    err: &mut E,
) -> u8
    ensures { result ≤ 1 }
{
    let Ok(mut lines) = BufWriter::new(alloc, out) else {
        return no_memory(err);
    };
    match print_head(alloc, kind, view, &mut lines) {
        Ok(()) => {}
        Err(Failure::Output) => return unprinted(lines, err),
        Err(_) => return unprinted_for_memory(lines, err),
    }
    for path in wish.paths {
        if let Err((store, stop)) = cat_file(
            rt,
            alloc,
            kind,
            view,
            wish,
            path.as_str(),
            &mut lines,
        ) {
            if stop == Stop::Failed(Failure::Output) || lines.flush().is_err() {
                return unprinted(lines, err);
            }
            return tell_stop(alloc, kind, path.as_str(), store, stop, err);
        }
    }
    match lines.flush() {
        Ok(()) => 0,
        Err(_) => unprinted(lines, err),
    }
}

// Prints the rows of a file. Returns why it stopped, and at which of the stores in the file.
fn cat_file<R: Files + AllocGlobal, O: WriteBytes>(
    rt: &R,
    alloc: Global,
    kind: &Type,
    view: &View<'_>,
    wish: &Wish<'_>,
    path: &str,
    out: &mut O,
) -> Result<(), (Option<usize>, Stop)> {
    let bytes = match file_bytes(rt, path) {
        Ok(bytes) => bytes,
        Err(failure) => return Err((None, Stop::Failed(failure))),
    };
    if wish.flags.stores {
        match cat_stores(alloc, kind, view, bytes.as_slice(), out) {
            Ok(()) => Ok(()),
            Err((number, stop)) => Err((Some(number), stop)),
        }
    } else {
        match cat_bytes(alloc, kind, view, wish.span, bytes.as_slice(), out) {
            Ok(()) => Ok(()),
            Err(stop) => Err((None, stop)),
        }
    }
}

// Writes why printing stopped, and returns the status 1.
fn tell_stop<E: Write>(
    alloc: Global,
    kind: &Type,
    path: &str,
    store: Option<usize>,
    stop: Stop,
    err: &mut E,
) -> u8
    ensures { result ≡ 1 }
{
    let label = match store {
        Some(number) => format!(in alloc; "{path}, store {number}"),
        None => String::from_str(alloc, path),
    };
    match label {
        Ok(label) => tell_stop_at(alloc, kind, label.as_str(), stop, err),
        Err(_) => no_memory(err),
    }
}

// Does the same for a store with this label.
fn tell_stop_at<E: Write>(alloc: Global, kind: &Type, label: &str, stop: Stop, err: &mut E) -> u8
    ensures { result ≡ 1 }
{
    let _written = match stop {
        Stop::Failed(Failure::Memory) => return no_memory(err),
        Stop::Failed(Failure::Output) => return no_output(err),
        Stop::Failed(Failure::Input) => return cannot_read(label, err),
        Stop::Refused(fault) => match fault_line(alloc, kind, label, &fault) {
            Ok(line) => write!(err, "{line}"),
            Err(_) => return no_memory(err),
        },
        Stop::Beyond(count) => writeln!(err, "{label}: the range is not within {count} rows"),
        Stop::Row(index, why) => writeln!(err, "{label}: row {index}: {why}"),
    };
    1
}

// Leaves the lines that are not written yet, and writes that an allocation failed.
fn unprinted_for_memory<W: Write + Drop, E: Write>(lines: BufWriter<W>, err: &mut E) -> u8
    ensures { result ≡ 1 }
{
    let (_out, _unwritten) = lines.into_parts();
    no_memory(err)
}

// Leaves the lines that are not written yet, and writes that the output failed.
fn unprinted<W: Write + Drop, E: Write>(lines: BufWriter<W>, err: &mut E) -> u8
    ensures { result ≡ 1 }
{
    let (_out, _unwritten) = lines.into_parts();
    no_output(err)
}
