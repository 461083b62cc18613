// Splits the costs of many years on a line, one after the other, and prints what came of it: bench/closings measures it.
#![tactic(auto)]

use anyhow::anyhow;
use cents::costs::split_costs;
use line::line::Line;
use line::refusal::Refusal;
use line::size::Size;
use std::alloc::{AllocError, Global};
use std::{env, fs};

// What a part costs in a year.
fn cost(part: usize, year: u64) -> u64 {
    1000 + (7 * (part as u64 % 1000) + year % 1000) % 97
}

// The sum of a row.
fn total(row: &[u64]) -> u64 {
    row.iter().fold(0, |all: u64, x| all.wrapping_add(*x))
}

// What each part costs in a year, and how many odd cents each farm has paid and what it pays, for the largest line.
#[derive(Drop)]
struct Books {
    costs: Vec<u64>,
    odd: Vec<u64>,
    sums: Vec<u64>,
}

impl Books {
    // Nothing has been paid.
    fn new(heap: Global) -> Result<Books, AllocError> {
        let most = Size::LARGEST;
        Ok(Books {
            costs: vec![in heap; 0; most.parts as usize]?,
            odd: vec![in heap; 0; most.farms as usize]?,
            sums: vec![in heap; 0; most.farms as usize]?,
        })
    }

    // Splits the costs of a year.
    fn close(&mut self, line: &Line, year: u64) -> Result<(), Refusal> {
        let costs = self.costs.as_mut_slice();
        for (part, each) in costs.iter_mut().enumerate() {
            *each = cost(part, year);
        }
        split_costs(
            line,
            costs,
            self.odd.as_mut_slice(),
            self.sums.as_mut_slice(),
        )
    }

    // Splits so many years on the line that the bytes mean.
    fn close_all(&mut self, bytes: &[u8], words: &mut [u64], years: u64) -> Result<(), Refusal> {
        let line = Line::read(bytes, words)?;
        for year in 0..years {
            self.close(&line, year)?;
        }
        Ok(())
    }
}

// Splits the years that the arguments ask for, and prints the sums.
fn run(rt: &HostRuntime) -> anyhow::Result<()> {
    let mut args = env::args(rt)?;
    let _ = args.next();
    let (Some(name), Some(years), None) = (args.next(), args.next(), args.next()) else {
        return Err(anyhow!("{:?}", "usage: closings LINE YEARS"));
    };
    let years = years.as_str().parse::<u64>()?;
    let bytes = fs::read(rt, name.as_str())?;
    let mut words = vec![in rt.alloc(); 0; Size::LARGEST.words()]?;
    let mut books = Books::new(rt.alloc())?;
    books
        .close_all(bytes.as_slice(), words.as_mut_slice(), years)
        .map_err(|_| anyhow!("{:?}", "closings: the line or a year is refused"))?;
    println!(rt; "odd cents {}", total(books.odd.as_slice()))?;
    println!(rt; "cents of the last year {}", total(books.sums.as_slice()))?;
    Ok(())
}

fn main(rt: HostRuntime) -> anyhow::Result<()> {
    run(&rt)
}
