//! An example: values of your own struct and of your own enum, in columns.
#![tactic(auto)]

mod shape;
mod visit;

use shape::{Shape, Shapes};
use std::alloc::{AllocError, Global};
use std::io::Write;
use std::process::ExitCode;
use visit::{Visit, Visits};

fn main(rt: HostRuntime) -> ExitCode {
    let mut out = rt.stdout();
    match show(rt.alloc(), &mut out) {
        Ok(()) => ExitCode::SUCCESS,
        Err(_) => ExitCode::FAILURE,
    }
}

fn show<O: Write>(alloc: Global, out: &mut O) -> anyhow::Result<()> {
    show_visits(alloc, out)?;
    show_shapes(alloc, out)
}

fn two_pages(alloc: Global) -> Result<Vec<String>, AllocError> {
    let first = String::from_str(alloc, "/index")?;
    let second = String::from_str(alloc, "/about")?;
    Ok(vec![in alloc; first, second]?)
}

// Writes, opens and reads two visits; turns the second into a value again.
fn show_visits<O: Write>(alloc: Global, out: &mut O) -> anyhow::Result<()> {
    let mut visits = Visits::new(alloc);
    let pages = two_pages(alloc)?;
    visits.add_parts(12, "ada", pages.as_slice())?;
    visits.add(&Visit {
        time: 20,
        user: String::from_str(alloc, "bobby")?,
        pages,
        level: 3,
        note: Some(String::from_str(alloc, "late")?),
    })?;
    let opened = Visits::open(alloc, visits.written(alloc)?)?;
    opened.print(out)?;
    writeln!(out, "times: {}", opened.time())?;
    if let Some(visit) = opened.visit(alloc, 1) {
        let visit = visit?;
        writeln!(out, "{} saw {} pages", visit.user, visit.pages.len())?;
    }
    Ok(())
}

// Writes, opens and reads four figures; turns the third into a value again.
fn show_shapes<O: Write>(alloc: Global, out: &mut O) -> anyhow::Result<()> {
    let mut shapes = Shapes::new(alloc);
    shapes.add(&Shape::Circle(3))?;
    shapes.add(&Shape::Named(String::from_str(alloc, "hexagon")?))?;
    shapes.add(&Shape::Square {
        side: 4,
        at: (1, 2),
    })?;
    shapes.add(&Shape::Nothing)?;
    let opened = Shapes::open(alloc, shapes.written(alloc)?)?;
    opened.print(out)?;
    writeln!(out, "radii: {}", opened.radii())?;
    if let Some(Ok(Shape::Square { side, at: _ })) = opened.shape(alloc, 2) {
        writeln!(out, "its side is {side}")?;
    }
    Ok(())
}
