//! Verdicts on rises of weight 6 to 11 among 32 rules, in reach and out of it. With the argument `time` it says how many
//! microseconds each takes.
#![tactic(auto)]

use model::book::Book;
use model::orders::Ladder;
use question::row::WordError;
use question::rule::Rule;
use question::verdict::{Verdict, judge};
use std::rt::Clock;
use std::time::Instant;
use std::{env, fmt, io};

/// So many times each verdict is asked for when it is timed.
const TIMES: u32 = 50;

/// A word of the rises' symbol alone, which serves each of their rules.
const SERVES: Book<'static> = Book(&[6, 1, 1, 1, 1, 1, 1]);

/// A word that serves none of them.
const SERVES_NONE: Book<'static> = Book(&[1, 15]);

/// The left sides of the rules of a rise of this weight, in its order.
fn rise(weight: u8) -> &'static [&'static [u8]] {
    match weight {
        6 => &[&[1], &[1], &[1]],
        7 => &[&[1, 1], &[1], &[1]],
        8 => &[&[1, 1], &[1, 1], &[1]],
        9 => &[&[1, 1], &[1, 1], &[1, 1]],
        10 => &[&[1], &[1], &[1], &[1]],
        _ => &[&[1, 1], &[1], &[1], &[1]],
    }
}

/// Rule `i` of a design: of the rise from stage to stage, or past it a rule that stays and turns a symbol into the next.
fn rule(i: usize, sides: &[&[u8]]) -> Result<Rule, WordError> {
    let i = (i % 32) as u8;
    match sides.get(usize::from(i)) {
        Some(side) => Rule::new(i, side, i + 1, &[1]),
        None => Rule::new(i % 3, &[2 + i % 11], i % 3, &[3 + i % 11]),
    }
}

/// The rules of a rise, filled up to 32 by rules that stay.
fn rules(sides: &[&[u8]]) -> Result<[Rule; 32], WordError> {
    let mut rules = [Rule::default(); 32];
    for (i, place) in rules.iter_mut().enumerate() {
        *place = rule(i, sides)?;
    }
    Ok(rules)
}

/// What is said of a goal, in a word.
#[derive(Clone, Copy)]
struct Said(Verdict);

impl fmt::Display for Said {
    fn fmt<W: fmt::Write>(&self, f: &mut fmt::Formatter<W>) -> fmt::Result {
        f.write_str(match self.0 {
            Verdict::Out => "out",
            Verdict::In(_) => "in",
            Verdict::TooHeavy => "too heavy",
        })
    }
}

/// Prints the verdict on the rise's end, and how long it took where that is wanted.
fn show(rt: &(impl Print + Clock), weight: u8, book: Book<'_>, is_timed: bool) -> io::Result<()> {
    let sides = rise(weight);
    let goal = u8::try_from(sides.len()).unwrap_or(u8::MAX);
    let mut cells = [0; 32_768];
    let Ok(rules) = rules(sides) else {
        return println!(rt; "{weight} no rules");
    };
    let Ok(verdict) = judge(&Ladder(5), &book, &rules, 0, goal, &mut cells) else {
        return println!(rt; "{weight} no verdict");
    };
    if !is_timed {
        return println!(rt; "weight {weight}: {}", Said(verdict));
    }
    let start = Instant::now(rt)?;
    let mut said = verdict;
    for _ in 0..TIMES {
        said = judge(&Ladder(5), &book, &rules, 0, goal, &mut cells).unwrap_or(said);
    }
    let micros = start.elapsed(rt)?.as_micros() / u128::from(TIMES);
    println!(rt; "weight {weight}: {} in {micros} microseconds", Said(said))
}

fn main(rt: HostRuntime) -> io::Result<()> {
    let is_timed = env::args(&rt)?.any(|word| word.as_str() == "time");
    for weight in 6..=11u8 {
        show(&rt, weight, SERVES, is_timed)?;
        show(&rt, weight, SERVES_NONE, is_timed)?;
    }
    Ok(())
}
