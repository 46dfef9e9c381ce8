// The row of bays, lent: one record is read, one is put, and each is noted once. The rules stand elsewhere.
ghost use Rattle.std.specs.Prelude.{◌≡◌, set};
ghost use Rattle.port.specs.Step.{bay_at};
ghost use Rattle.port.specs.Promises.{Surveys, Steps};

use crate::state::{begun, planned};
use crate::taking::concerned;
use crate::{Scan, Stepped};
use bay::Bay;
use event::Event;

// The record at a place; past the end a fresh one.
fn record_at(row: &[Bay], at: usize) -> Bay
    ensures { result ≡ bay_at row.now at }
{
    row.get(at).copied().unwrap_or_else(|| bay::fresh())
}

// One record is put, and every other is left; past the end nothing changes. It is put by its index: of a slice
// that was written through `get_mut` a proof knows the length alone, and `Steps` speaks of every record.
fn put_record(row: &mut [Bay], at: usize, bay: Bay)
    ensures { row.new ≡ set row.old at bay }
{
    if at < row.len() {
        row[at] = bay;
    }
}

// Each record is noted once, after what was gathered before.
#[tactic(auto, unfolding(crate::specs::Stages::scanned))]
pub fn survey(row: &[Bay], from: Scan) -> Scan
    ensures { Surveys row.now from result }
{
    row.iter().fold(from, |scan, &bay| scan.noted(bay))
}

// Any row, queue, number and event. An event concerns one record at most, and that alone is put. Number and event stay
// apart, here and below: C lends them so, and `Takes` and `Steps` name both.
#[tactic(auto, using(crate::proofs::InPlace::in_place))]
pub fn step(row: &mut [Bay], queue: &mut [u64], number: u64, event: Event) -> Stepped
    ensures { Steps row.old queue.old number event result row.new queue.new }
{
    let scan = survey(row, begun());
    let at = concerned(scan.free, number);
    let own = record_at(row, at);
    let taken = planned(scan, own, queue, number, event);
    put_record(row, at, taken.bay);
    taken.stepped
}
