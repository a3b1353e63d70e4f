//! The writer of an instance's text.
#![tactic(auto, unfolding(crate::specs::Text::instance_text))]

ghost use Rattle.std.specs.Prelude.{◌≡◌, ℕ, ◌+◌, ◌*◌, ◌<◌, ◌≤◌, ◌++◌, List, Ok, IfOk, OnOk, length, slice_index, string_bytes};
ghost use Rattle.pls_problem.specs.Reading as reading;
ghost use Rattle.pls_problem.specs.Text.{assignment_text, head_line, instance_text, knapsack_text, numbers_line, rows_text, tour_text};

use crate::instance::Instance;
use crate::kind::Kind;
use pls_io::push_word;
use pls_knapsack::Knapsack;
use pls_perms::{Assignment, Tour};
use std::alloc::{AllocError, Global};

/// The text of an instance, from which `read` makes it again. Its words stand on lines, separated by
/// single spaces: the kind and the sizes, then of a knapsack the capacities, and each row of numbers.
pub fn write(alloc: Global, instance: &Instance) -> Result<Vec<u8>, AllocError>
    ensures text { IfOk result (λ text. text.items ≡ instance_text instance.now) }
    ensures read { IfOk result (λ text. reading.instance text.items ≡ Ok instance.now) }
{
    let mut text = String::new(alloc);
    write_instance(&mut text, instance)?;
    Ok(text.into_bytes())
}

fn write_instance(text: &mut String, instance: &Instance) -> Result<(), AllocError>
    ensures text { OnOk result (string_bytes text.new ≡ string_bytes text.old ++ instance_text instance.now) }
    ensures read { OnOk result (reading.instance (instance_text instance.now) ≡ Ok instance.now) }
{
    match instance {
        Instance::Knapsack(knapsack) => write_knapsack(text, knapsack),
        Instance::Assignment(assignment) => write_assignment(text, assignment),
        Instance::Tour(tour) => write_tour(text, tour),
    }
}

fn write_knapsack(text: &mut String, knapsack: &Knapsack) -> Result<(), AllocError>
    ensures text { OnOk result (string_bytes text.new ≡ string_bytes text.old ++ knapsack_text knapsack.now) }
    ensures read { OnOk result (reading.instance (knapsack_text knapsack.now) ≡ Ok (Instance.Knapsack knapsack.now)) }
{
    let objectives = knapsack.objectives();
    let items = knapsack.size();
    let rules = knapsack.rules();
    write_head(
        text,
        Kind::Knapsack,
        &[objectives as u32, items as u32, rules as u32],
    )?;
    write_numbers(text, rules as u16, |row| knapsack.capacity(row as u8))?;
    write_rows(
        text,
        objectives as u16,
        items,
        |row, item| knapsack.profit(row as u8, item),
    )?;
    write_rows(
        text,
        rules as u16,
        items,
        |row, item| knapsack.weight(row as u8, item),
    )?;
    Ok(())
}

fn write_assignment(text: &mut String, assignment: &Assignment) -> Result<(), AllocError>
    ensures text { OnOk result (string_bytes text.new ≡ string_bytes text.old ++ assignment_text assignment.now) }
    ensures read { OnOk result (reading.instance (assignment_text assignment.now) ≡ Ok (Instance.Assignment assignment.now)) }
{
    let objectives = assignment.objectives();
    let agents = assignment.size();
    write_head(text, Kind::Assignment, &[objectives as u32, agents as u32])?;
    write_rows(
        text,
        objectives as u16 * agents,
        agents,
        |row, column| assignment.cost((row / agents) as u8, row % agents, column),
    )?;
    Ok(())
}

fn write_tour(text: &mut String, tour: &Tour) -> Result<(), AllocError>
    ensures text { OnOk result (string_bytes text.new ≡ string_bytes text.old ++ tour_text tour.now) }
    ensures read { OnOk result (reading.instance (tour_text tour.now) ≡ Ok (Instance.Tour tour.now)) }
{
    let objectives = tour.objectives();
    let cities = tour.size();
    write_head(text, Kind::Tour, &[objectives as u32, cities as u32])?;
    let edges = (cities as u32 * (cities as u32 - 1) / 2) as u16;
    write_rows(
        text,
        objectives as u16,
        edges,
        |list, place| tour.edge(list as u8, place as u32),
    )?;
    Ok(())
}

/// Writes the first line: the kind, and its sizes.
fn write_head(text: &mut String, kind: Kind, sizes: &[u32]) -> Result<(), AllocError>
    requires { length sizes.now ≤ 3 }
    ensures { OnOk result (string_bytes text.new ≡ string_bytes text.old ++ head_line kind sizes.now) }
{
    text.push_str("pls1 ")?;
    text.push_str(kind.name())?;
    text.push_str(" ")?;
    write_numbers(text, sizes.len() as u16, |place| sizes[place as usize])
}

/// Writes a line for each row of a table, with what `number` gives for the row and each place.
fn write_rows<F: Fn(u16, u16) -> u32>(
    text: &mut String,
    rows: u16,
    items: u16,
    number: F,
) -> Result<(), AllocError>
    requires { (row item : ℕ) → row < rows → item < items → F.pre number row item }
    ensures { (table : List ℕ) → length table ≡ rows * items
        → ((row item n : ℕ) → row < rows → item < items → F.post number row item n → n ≡ slice_index table (row * items + item))
        → OnOk result (string_bytes text.new ≡ string_bytes text.old ++ rows_text rows items table) }
{
    for row in 0..rows {
        write_numbers(
            text,
            items,
            |item|
                requires { F.pre number row item }
                ensures { F.post number row item result }
            { number(row, item) },
        )?;
    }
    Ok(())
}

/// Writes so many numbers on a line, separated by spaces: at each place from 0 on what `number` gives.
fn write_numbers<F: Fn(u16) -> u32>(
    text: &mut String,
    count: u16,
    number: F,
) -> Result<(), AllocError>
    requires { (place : ℕ) → place < count → F.pre number place }
    ensures { (numbers : List ℕ) → length numbers ≡ count
        → ((place n : ℕ) → place < count → F.post number place n → n ≡ slice_index numbers place)
        → OnOk result (string_bytes text.new ≡ string_bytes text.old ++ numbers_line numbers) }
{
    let mut any = false;
    for place in 0..count {
        push_word(text, any, number(place))?;
        any = true;
    }
    text.push_str("\n")?;
    Ok(())
}
