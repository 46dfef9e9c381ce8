// The words of a step: what it reports.
ghost use Rattle.std.specs.Prelude.{◌≡◌, ◌+◌, ◌≤◌, ◌==◌};
ghost use Rattle.table.specs.Choice.{pick};
ghost use Rattle.table.specs.Refusals.{number_of};
ghost use Rattle.event.specs.Names.{most_counter};
ghost use Rattle.bay.specs.Gap.{report};
ghost use Rattle.bay.specs.Step.{at_once, refused};
ghost use Rattle.bay.specs.Legs.{report_at, first_of, second_of, both_legs};
ghost use Rattle.bay.specs.Promises.{GivesLast};

use crate::{Bay, Leg, Report, Stepped};
use event::{NO_OPEN, Open};
use table::{ON, Refusal};

pub const NO_REPORT: Report = Report { code: 0, tick: 0 };

impl Report {
    fn new(code: u64, tick: u64) -> Report
        ensures { result ≡ report code tick }
    {
        Report { code, tick }
    }

    // Where the code is 0 the tick is too.
    fn or_none(self) -> Report
        ensures { result ≡ report_at self.code self.tick }
    {
        if self.code == 0 {
            return NO_REPORT;
        }
        self
    }

    // The first of two whose code is not 0.
    fn or(self, later: Report) -> Report
        ensures { result ≡ first_of self.code self.tick later.code later.tick }
    {
        if self.code == 0 {
            return later.or_none();
        }
        self
    }

    // The second of two, where neither code is 0.
    fn and(self, later: Report) -> Report
        ensures { result ≡ second_of self.code later.code later.tick }
    {
        if self.code == 0 {
            return NO_REPORT;
        }
        later.or_none()
    }
}

impl Bay {
    // What a phy's step gave: no gap has passed, and the base is kept.
    pub(crate) fn at_once(self, r: phy::Stepped) -> Stepped
        ensures { result ≡ at_once self r }
    {
        Stepped {
            next: Bay {
                phy: r.next,
                ..self
            },
            answered: r.answered,
            answer: Report::new(r.answer, 0),
            notice: Report::new(r.notice, 0),
            secondNotice: NO_REPORT,
            sent: Report::new(r.sent, 0),
            refusal: r.refusal,
        }
    }

    pub(crate) fn refused(self, refusal: Refusal) -> Stepped
        ensures { result ≡ refused self (number_of refusal) }
    {
        Stepped {
            next: self,
            answered: NO_OPEN,
            answer: NO_REPORT,
            notice: NO_REPORT,
            secondNotice: NO_REPORT,
            sent: NO_REPORT,
            refusal: refusal.into(),
        }
    }
}

// The Open of the first answer.
fn answered_of(a: phy::Stepped, b: phy::Stepped) -> Open
    ensures { result ≡ pick (a.answer == 0) b.answered a.answered }
{
    if a.answer == 0 {
        return b.answered;
    }
    a.answered
}

// Two legs of a gap, one after the other, up to a counter.
pub(crate) fn both_legs(a: Leg, b: Leg, counter: u64) -> Stepped
    requires { a.ticks + b.ticks ≤ most_counter }
    ensures { result ≡ both_legs a b counter }
{
    let first = a.stepped;
    let second = b.stepped;
    let at = a.ticks;
    let then = at + b.ticks;
    let notice = Report::new(first.notice, at);
    let later_notice = Report::new(second.notice, then);
    Stepped {
        next: Bay {
            phy: second.next,
            base: counter,
            baseSet: ON,
        },
        answered: answered_of(first, second),
        answer: Report::new(first.answer, at).or(Report::new(second.answer, then)),
        notice: notice.or(later_notice),
        secondNotice: notice.and(later_notice),
        sent: Report::new(first.sent, at).or(Report::new(second.sent, then)),
        refusal: 0,
    }
}

// Of two notices the second, or the only one.
pub fn last_notice(first: Report, second: Report) -> u64
    ensures { GivesLast first second result }
{
    if second.code == 0 {
        return first.code;
    }
    second.code
}
