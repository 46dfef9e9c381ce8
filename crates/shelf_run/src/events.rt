// The events of a run, one after the other. The records stand in a table, and only the one that an event
// concerns is read and put back.
ghost use Rattle.std.specs.Prelude.{◌≤◌, ◌≡◌, length};
ghost use Rattle.run.specs.Running.{tells_stop};
ghost use Rattle.shelf_run.specs.Running.{unset as running_unset, spent_at, ran as running_ran};
ghost use Rattle.shelf_run.specs.Stages.{empty as stages_empty, all_unset, gone};
ghost use Rattle.shelf_run.specs.Promises.{TakesEvents, GoesOver};

use crate::{Gone, Ran, Table};
use bay::Bay;
use number::Found;
use port::{MOST_PHYS, Scan, Standing};
use replies::StopReply;
use run::Stop;
use table::Refusal;

// A table of fresh bays.
pub(crate) fn empty() -> Table
    ensures { result ≡ stages_empty }
{
    let fresh = bay::fresh();
    Table {
        bays: [fresh; MOST_PHYS],
    }
}

// The recorder's clock starts with the run.
fn unset(bay: Bay) -> Bay
    ensures { result ≡ running_unset bay }
{
    Bay::from(bay.phy)
}

// Every base of a table unset.
fn all_unset(table: Table) -> Table
    ensures { result.bays ≡ all_unset table.bays }
{
    Table {
        bays: table.bays.map(unset),
    }
}

fn stopped(table: Table, count: usize, stop: Stop) -> Gone
    ensures { result ≡ gone table.bays (running_ran count (tells_stop stop)) }
{
    Gone {
        table,
        ran: Ran {
            count,
            stop: StopReply::from(stop),
        },
    }
}

// How a run stops whose budget is spent. The end comes first: a trace that ends with its last event taken has
// ended.
fn spent(table: Table, count: usize, place: usize, length: usize) -> Gone
    ensures { result ≡ gone table.bays (running_ran count (spent_at place length)) }
{
    if place < length {
        return stopped(table, count, Stop::Budget);
    }
    stopped(table, count, Stop::End)
}

// The events of a trace under a budget that the buffer has room for. An event that concerns no phy of the port
// takes a fresh record in its stead, which nobody sees.
fn take_events(
    standing: Standing,
    table: Table,
    queue: &mut [u64],
    trace: &[u8],
    budget: usize,
    buffer: &mut [u8],
) -> Gone
    requires { budget ≤ length buffer.old }
    ensures { TakesEvents standing table.bays queue.old trace.now budget buffer.old result queue.new buffer.new }
{
    let mut stands = standing;
    let mut table = table;
    let mut place = 0;
    for count in 0..budget {
        match shelf::event_at(trace, place) {
            Ok(Some(Found { value: event, next })) => {
                let at = port::concerned(stands.free, event.number);
                let held = ((at as u64) < stands.count) & (at < MOST_PHYS);
                let own = if held { table.bays[at] } else { bay::fresh() };
                let taken = port::take(stands, own, queue, event.number, event.event);
                let bay = taken.bay;
                let reports = taken.stepped.reports;
                buffer[count] = run::byte_for(reports.refusal, reports.answer.code);
                if held {
                    table.bays[at] = bay;
                }
                stands = taken.standing;
                place = next;
            }
            Ok(None) => return stopped(table, count, Stop::End),
            Err(fault) => return stopped(table, count, Stop::Fault(fault)),
        }
    }
    spent(table, budget, place, trace.len())
}

// A run over what was surveyed: the port is judged as given, then every base is unset.
pub(crate) fn over(
    scan: Scan,
    table: Table,
    queue: &mut [u64],
    trace: &[u8],
    budget: usize,
    buffer: &mut [u8],
) -> Gone
    ensures { GoesOver scan table.bays queue.old trace.now budget buffer.old result queue.new buffer.new }
{
    let judged = port::judge(scan, queue);
    if judged.valid {
        if buffer.len() < budget {
            return stopped(table, 0, Stop::Refused(Refusal::NoRoom));
        }
        return take_events(
            judged.standing,
            all_unset(table),
            queue,
            trace,
            budget,
            buffer,
        );
    }
    stopped(table, 0, Stop::Refused(Refusal::BadState))
}
