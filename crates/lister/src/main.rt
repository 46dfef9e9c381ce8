// Lists the trace on standard input: what a fresh phy does at each event, or a shelf of fresh phys. What the
// lines say is proved in crates `listing` and `shelf_listing`; here they are gathered and written out.
#![tactic(auto)]

ghost use Rattle.std.specs.Prelude.{◌≡◌, ◌-◌, Some, None};
ghost use Rattle.table.specs.Choice.{pick};
ghost use Rattle.bay.specs.State.{fresh_bay};
ghost use Rattle.listing.specs.Listing.{of_phy};
ghost use Rattle.port.specs.Names.{most_phys};
ghost use Rattle.shelf_listing.specs.Held.{fresh_shelf, of_shelf};
ghost use Rattle.lister.specs.Says.{first_digit, is_digit, meant_by, some_phys, Measures, ending_of, ListsTo};

use lines::{Listing, Written};
use listing::OfPhy;
use output::{Text, fail, read_full};
use port::MOST_PHYS;
use shelf_listing::OfShelf;
use std::env::FillError;
use std::fmt::{self, Display};
use std::fs::OpenOptions;
use std::io::{Read, Write};
use std::rt::{Env, Files};

// The outcome is told on descriptor 3, which the system opens anew under this name. Whoever opens it says so
// by the first argument. The second is the number of phys of a shelf, whose trace is listed then.
const OUTCOME: &str = "/dev/fd/3";

const TOLD: usize = 1;

const PHYS: usize = 2;

// An argument that is longer is no number of phys.
const MOST_ARGUMENT: usize = 20;

// The buffer in which lines are gathered.
const ROOM: usize = 65536;

// What is said of an input that cannot be read.
const UNREAD: &str = "the trace cannot be read";

// What became of the trace: listed to its end, damaged or too long, not all of it written, or not read.
#[derive(Clone, Copy)]
enum Outcome {
    Whole,
    Damaged,
    Unwritten,
    Unread,
}

impl Display for Outcome {
    fn fmt<W: fmt::Write>(&self, f: &mut fmt::Formatter<W>) -> fmt::Result {
        f.write_str(match self {
            Outcome::Whole => "whole",
            Outcome::Damaged => "damaged",
            Outcome::Unwritten => "unwritten",
            Outcome::Unread => "unread",
        })
    }
}

// How long the input is of which this many bytes were kept, where it can be read. The read that kept them cannot
// tell the input's end from a failure, so one byte more is asked for; it also tells that the input is too long.
fn total(rt: &impl Eprint, input: &mut impl Read, kept: usize) -> Option<usize>
    ensures { Measures kept result }
{
    let mut more = [0u8; 1];
    match input.read(&mut more) {
        Ok(0) => Some(kept),
        Ok(_) => {
            if kept == lines::MOST_TRACE {
                return Some(lines::MOST_TRACE + 1);
            }
            let _ = rt.eprintln(UNREAD);
            None
        }
        Err(error) => {
            fail(rt, UNREAD, &error);
            None
        }
    }
}

// The outcome after the last line, where the text tells whether all was written.
fn ending(whole: bool, text: &Text) -> Outcome
    ensures { result ≡ ending_of whole text.now.n }
{
    if text.is_lost() {
        return Outcome::Unwritten;
    }
    if whole {
        return Outcome::Whole;
    }
    Outcome::Damaged
}

// Lists a trace from a state on; `total` says how long the input was, which may be longer. The lines are gathered,
// and written when there is no room for the next one. Where a write fails the listing stops.
fn list<L: Listing>(
    rt: &(impl Print + Eprint),
    from: L::State,
    trace: &[u8],
    total: usize,
) -> Outcome
    ensures { ListsTo L.listable from trace.now total result }
{
    let mut room = [0u8; ROOM];
    let mut text = Text::new(&mut room);
    let mut progress = lines::start(total);
    let mut state = from;
    loop {
        let listed = L::next_line(trace, progress, state, &mut text);
        state = listed.state;
        match listed.written {
            Ok(Written::Line { next, .. }) => progress = next,
            Ok(Written::Done { whole }) => {
                text.write_out(rt, 0);
                return ending(whole, &text);
            }
            Err(_) => {
                text.write_out(rt, 0);
                if text.is_lost() {
                    return Outcome::Unwritten;
                }
            }
        }
    }
}

// Lists the trace of a fresh phy.
fn list_phy(rt: &(impl Print + Eprint), trace: &[u8], total: usize) -> Outcome
    ensures { ListsTo of_phy fresh_bay trace.now total result }
{
    list::<OfPhy>(rt, bay::fresh(), trace, total)
}

// The same of a shelf of fresh phys.
fn list_shelf(rt: &(impl Print + Eprint), trace: &[u8], total: usize, phys: usize) -> Outcome
    ensures { ListsTo of_shelf (fresh_shelf phys) trace.now total result }
{
    list::<OfShelf>(rt, shelf_listing::fresh(phys), trace, total)
}

// The digit that a byte is.
fn digit_of(byte: u8) -> Option<usize>
    ensures { result ≡ pick (is_digit byte) (Some (byte - first_digit)) None }
{
    match byte {
        b'0'..=b'9' => Some((byte - b'0') as usize),
        _ => None,
    }
}

// The number of phys that a text means, in decimal digits alone, where it means one that a port may have. By hand:
// `parse` takes a sign in front, and the definition takes digits alone.
fn meant_by(text: &[u8]) -> Option<usize>
    ensures { result ≡ some_phys (meant_by most_phys text.now) }
{
    let mut phys = 0;
    for byte in text {
        phys = phys * 10 + digit_of(*byte)?;
        if MOST_PHYS < phys {
            return None;
        }
    }
    if phys == 0 { None } else { Some(phys) }
}

// Lists the input; as a shelf's trace, where a number of phys is given.
fn list_input(rt: &(impl Print + Eprint), input: &mut impl Read, phys: Option<usize>) -> Outcome {
    let mut trace = [0u8; lines::MOST_TRACE];
    let kept = read_full(input, &mut trace);
    let Some(total) = total(rt, input, kept) else {
        return Outcome::Unread;
    };
    match phys {
        Some(phys) => list_shelf(rt, &trace[..kept], total, phys),
        None => list_phy(rt, &trace[..kept], total),
    }
}

// Whether the program was given an argument.
fn is_given(rt: &impl Env, number: usize) -> bool {
    let mut text = [0u8; MOST_ARGUMENT];
    match rt.arg(number, &mut text) {
        Ok(_) => true,
        Err(FillError::TooLong) => true,
        Err(FillError::NotPresent) => false,
    }
}

// The number of phys that the argument means, where it means one that a port may have.
fn phys_given(rt: &impl Env) -> Option<usize> {
    let mut text = [0u8; MOST_ARGUMENT];
    let length = rt.arg(PHYS, &mut text).ok()?;
    meant_by(&text[..length])
}

// The outcome as a line, where an argument asks for it. Where it cannot be told, nobody hears of that.
fn tell<T: Display + Drop>(rt: &(impl Env + Files), line: T) {
    if !is_given(rt, TOLD) {
        return;
    }
    if let Ok(mut told) = OpenOptions::new().append(true).open(rt, OUTCOME) {
        let _ = writeln!(told, "{line}");
    }
}

// Whoever asks for a shelf that no port has is told how many phys one may have.
fn tell_most(rt: &(impl Env + Files)) {
    tell(rt, format_args!("phys {MOST_PHYS}"));
}

fn main(rt: HostRuntime) {
    let phys = if is_given(&rt, PHYS) {
        let Some(phys) = phys_given(&rt) else {
            tell_most(&rt);
            return;
        };
        Some(phys)
    } else {
        None
    };
    let outcome = list_input(&rt, &mut rt.stdin(), phys);
    tell(&rt, outcome);
}
