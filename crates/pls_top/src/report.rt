//! The text of a search.

ghost use Rattle.std.specs.Prelude.{◌≡◌, ◌++◌, IfOk, OnOk, option_copied, string_bytes};
ghost use Rattle.pls_top.specs.Report.{report, demo_report, front_line, demo_line, members_line, point_line, value_text, value_or_dash, solution_text, end_line};

use pls_archive::{Point, PointList};
use pls_io::push_word;
use pls_problem::Instance;
use pls_search::End;
use pls_vectors::{Sol, Vector};
use std::alloc::{AllocError, Global};

/// What a search did: explorations that were whole and not skipped, updates within explorations,
/// and accepted points, starts included.
#[derive(Clone, Copy, Debug, PartialEq, Eq)]
pub struct Counts {
    pub explored: u64,
    pub evaluated: u64,
    pub accepted: u64,
}

/// The text of a search: a line on the front, a line for each of its points, and a line on the end.
pub fn report_text(
    alloc: Global,
    instance: &Instance,
    front: &PointList,
    counts: Counts,
    end: End,
) -> Result<Vec<u8>, AllocError>
    ensures { IfOk result (λ text. text.items ≡ report instance.now front.now counts end) }
{
    let points = front.as_slice();
    let mut text = String::new(alloc);
    write_front(&mut text, instance, points.len())?;
    for point in points {
        write_point(&mut text, instance, point)?;
    }
    write_end(&mut text, counts, end)?;
    Ok(text.into_bytes())
}

/// The text of a search on an instance that was made from a seed, in three lines: the instance, the number
/// of points with the first and the last value, and the end.
pub fn demo_text(
    alloc: Global,
    instance: &Instance,
    seed: u64,
    front: &PointList,
    counts: Counts,
    end: End,
) -> Result<Vec<u8>, AllocError>
    ensures { IfOk result (λ text. text.items ≡ demo_report instance.now seed front.now counts end) }
{
    let mut text = String::new(alloc);
    write_made(&mut text, instance, seed)?;
    write_members(&mut text, instance, front.as_slice())?;
    write_end(&mut text, counts, end)?;
    Ok(text.into_bytes())
}

fn write_front(text: &mut String, instance: &Instance, points: usize) -> Result<(), AllocError>
    ensures { OnOk result (string_bytes text.new ≡ string_bytes text.old ++ front_line instance.now points) }
{
    let kind = instance.kind().name();
    let objectives = instance.objectives();
    write!(text, "front {points} {kind} {objectives}\n")
}

fn write_made(text: &mut String, instance: &Instance, seed: u64) -> Result<(), AllocError>
    ensures { OnOk result (string_bytes text.new ≡ string_bytes text.old ++ demo_line instance.now seed) }
{
    let kind = instance.kind().name();
    let size = instance.size();
    let objectives = instance.objectives();
    write!(text, "demo {kind} {size} {objectives} seed {seed}\n")
}

fn write_members(text: &mut String, instance: &Instance, points: &[Point]) -> Result<(), AllocError>
    ensures { OnOk result (string_bytes text.new ≡ string_bytes text.old ++ members_line instance.now points.now) }
{
    let members = points.len();
    write!(text, "members {members} first ")?;
    write_value_or_dash(text, instance, points.first())?;
    text.push_str(" last ")?;
    write_value_or_dash(text, instance, points.last())?;
    text.push_str("\n")
}

/// Writes the value of a point, or a dash for none.
fn write_value_or_dash(
    text: &mut String,
    instance: &Instance,
    point: Option<&Point>,
) -> Result<(), AllocError>
    ensures { OnOk result (string_bytes text.new ≡ string_bytes text.old ++ value_or_dash instance.now (option_copied point.entry)) }
{
    match point {
        Some(point) => write_value(text, instance, &point.value),
        None => text.push_str("-"),
    }
}

fn write_point(text: &mut String, instance: &Instance, point: &Point) -> Result<(), AllocError>
    ensures { OnOk result (string_bytes text.new ≡ string_bytes text.old ++ point_line instance.now point.now) }
{
    write_value(text, instance, &point.value)?;
    text.push_str(" : ")?;
    write_solution(text, instance, &point.sol)?;
    text.push_str("\n")
}

/// Writes the parts of a value as the instance has them, separated by spaces.
fn write_value(text: &mut String, instance: &Instance, value: &Vector) -> Result<(), AllocError>
    ensures { OnOk result (string_bytes text.new ≡ string_bytes text.old ++ value_text instance.now value.now) }
{
    let parts = value.len();
    let mut any = false;
    for k in 0..parts {
        let part = instance.original(value.part(k));
        push_word(text, any, part)?;
        any = true;
    }
    Ok(())
}

/// Writes the numbers that a solution shows, separated by spaces, or a dash for none.
fn write_solution(text: &mut String, instance: &Instance, sol: &Sol) -> Result<(), AllocError>
    ensures { OnOk result (string_bytes text.new ≡ string_bytes text.old ++ solution_text instance.now sol.now) }
{
    let places = sol.len();
    let mut any = false;
    for place in 0..places {
        if let Some(number) = instance.shown_at(sol, place) {
            push_word(text, any, number)?;
            any = true;
        }
    }
    if !any {
        text.push_str("-")?;
    }
    Ok(())
}

fn write_end(text: &mut String, counts: Counts, end: End) -> Result<(), AllocError>
    ensures { OnOk result (string_bytes text.new ≡ string_bytes text.old ++ end_line counts end) }
{
    let word = match end {
        End::Closed => "closed",
        End::Stopped => "stopped",
        End::Full => "full",
    };
    let explored = counts.explored;
    let evaluated = counts.evaluated;
    let accepted = counts.accepted;
    write!(
        text,
        "end {word} explored {explored} evaluated {evaluated} accepted {accepted}\n"
    )
}
