// How an event is taken: it concerns one record, and where the port stands is carried along.
ghost use Rattle.std.specs.Prelude.{◌≡◌};
ghost use Rattle.table.specs.Results.{Leaves};
ghost use Rattle.table.specs.Refusals.{number_of};
ghost use Rattle.port.specs.State.{is_free as state_is_free};
ghost use Rattle.port.specs.Step.{only_refusal};
ghost use Rattle.bay.specs.Step.{move_of};
ghost use Rattle.port.specs.Stages.{standing as stands, free_after as mask_after, none_handed, keeps, receives, hand_on, on_moved, on_port};
ghost use Rattle.port.specs.Promises.{MakesReports, Concerns, Takes};

use crate::free::{PhyNumber, free_after, lowest_free, lowest_in, some_free};
use crate::state::is_free;
use crate::{MOST_PHYS, Reports, Standing, Stepped, THE_PORT, Taken};
use bay::{Bay, NO_REPORT};
use event::{Event, NO_OPEN, Open, TX_OPEN};
use queue::MOST_WAITING;
use table::Refusal;

// The place of the record that an event concerns: to the port, that of the lowest free phy.
#[tactic(auto, unfolding(crate::specs::Stages::concerned))]
pub fn concerned(free: u64, number: u64) -> usize
    ensures { Concerns free number result }
{
    if number == THE_PORT {
        return lowest_in(free) as usize;
    }
    number as usize
}

// What a bay's step reports.
impl From<bay::Stepped> for Reports {
    ghost from_gives = { MakesReports };

    fn from(r: bay::Stepped) -> Reports {
        Reports {
            answered: r.answered,
            answer: r.answer,
            notice: r.notice,
            secondNotice: r.secondNotice,
            sent: r.sent,
            refusal: r.refusal,
        }
    }
}

impl Reports {
    // Nothing but the number of a refusal.
    fn only_refusal(refusal: u64) -> Reports
        ensures { result ≡ only_refusal refusal }
    {
        Reports {
            answered: NO_OPEN,
            answer: NO_REPORT,
            notice: NO_REPORT,
            secondNotice: NO_REPORT,
            sent: NO_REPORT,
            refusal,
        }
    }
}

// Where a port stands, with the one record that an event concerns.
#[derive(Clone, Copy)]
pub(crate) struct Focus {
    pub(crate) standing: Standing,
    pub(crate) own: Bay,
}

impl Focus {
    // All is as it is, and no Open is handed out.
    fn none_handed(self, reports: Reports) -> Taken
        ensures { result ≡ none_handed self.own self.standing reports }
    {
        Taken {
            bay: self.own,
            standing: self.standing,
            stepped: Stepped {
                reports,
                handed: THE_PORT,
                handedSent: 0,
            },
        }
    }

    // Refused, all is as it was.
    pub(crate) fn keeps(self, refusal: Refusal) -> Taken
        ensures { result ≡ keeps self.standing self.own (number_of refusal) }
    {
        self.none_handed(Reports::only_refusal(refusal.into()))
    }

    // The record of the phy with a number has become another, and the mask follows it.
    fn becomes(self, phy: PhyNumber, bay: Bay) -> Focus
        ensures { result ≡ record {
          standing = stands self.standing.count (mask_after self.standing.free phy.number (state_is_free self.own) (state_is_free bay)) self.standing.waiting;
          own = bay;
        } }
    {
        let free = free_after(self.standing.free, phy, is_free(self.own), is_free(bay));
        Focus {
            standing: Standing {
                free,
                ..self.standing
            },
            own: bay,
        }
    }

    // So many Opens wait.
    fn with_waiting(self, waiting: u64) -> Focus
        ensures { result ≡ record { standing = stands self.standing.count self.standing.free waiting; own = self.own } }
    {
        let standing = Standing {
            waiting,
            ..self.standing
        };
        Focus { standing, ..self }
    }

    // A Tx Open goes to the phy with a number, the lowest that is free.
    fn receive(self, phy: PhyNumber, event: Event, reports: Reports) -> Taken
        ensures { result ≡ receives self.standing phy.number self.own reports self.standing.waiting (move_of self.own event) }
    {
        let r = bay::moved(self.own, event);
        let then = self.becomes(phy, r.next);
        Taken {
            bay: then.own,
            standing: then.standing,
            stepped: Stepped {
                reports,
                handed: lowest_in(self.standing.free),
                handedSent: r.sent.code,
            },
        }
    }

    // After an event of the phy with a number. None was free beside a waiting Open, so if one is, it is this
    // phy; and after this Open it is not, so there is no second hand-out.
    #[tactic(auto, unfolding(crate::specs::Stages::hand_on))]
    fn hand_on(self, phy: PhyNumber, queue: &mut [u64], reports: Reports) -> Taken
        ensures { Leaves result (hand_on self.standing phy.number self.own queue.old reports).taken queue.new (hand_on self.standing phy.number self.own queue.old reports).queue }
    {
        let waiting = self.standing.waiting;
        if (0 < waiting) & some_free(self.standing.free) {
            let oldest = Event::from(queue::oldest(queue));
            queue::advance(queue, waiting);
            return self.with_waiting(waiting - 1).receive(phy, oldest, reports);
        }
        self.none_handed(reports)
    }

    // What the phy with a number makes of its event.
    #[tactic(auto, unfolding(crate::specs::Stages::on_moved))]
    fn on_phy(self, phy: PhyNumber, queue: &mut [u64], event: Event) -> Taken
        ensures { Leaves result (on_moved self.standing phy.number self.own queue.old (move_of self.own event)).taken queue.new (on_moved self.standing phy.number self.own queue.old (move_of self.own event)).queue }
    {
        let r = bay::moved(self.own, event);
        if r.refusal != 0 {
            return self.none_handed(Reports::only_refusal(r.refusal));
        }
        let then = self.becomes(phy, r.next);
        then.hand_on(phy, queue, Reports::from(r))
    }

    // To the port: a Tx Open goes to a free phy at once, none being ahead of it, or joins the queue.
    #[tactic(auto, unfolding(crate::specs::Stages::on_port))]
    fn on_port(self, queue: &mut [u64], event: Event) -> Taken
        ensures { Leaves result (on_port self.standing self.own queue.old event).taken queue.new (on_port self.standing self.own queue.old event).queue }
    {
        let waiting = self.standing.waiting;
        if MOST_WAITING <= waiting {
            return self.keeps(Refusal::QueueFull);
        }
        let reports = Reports::only_refusal(0);
        if let Some(lowest) = lowest_free(self.standing.free) {
            return self.receive(lowest, event, reports);
        }
        queue::join(queue, waiting, Open::from(event));
        self.with_waiting(waiting + 1).none_handed(reports)
    }
}

// An event that is known, of a port that was judged valid; of those to the port itself only a Tx Open.
#[tactic(auto, unfolding(crate::specs::Stages::taken_of))]
pub fn take(standing: Standing, own: Bay, queue: &mut [u64], number: u64, event: Event) -> Taken
    ensures { Takes standing own queue.old number event result queue.new }
{
    let focus = Focus { standing, own };
    if number == THE_PORT {
        if event.code == TX_OPEN {
            return focus.on_port(queue, event);
        }
        return focus.keeps(Refusal::BadEvent);
    }
    if (number < standing.count) & (number < MOST_PHYS as u64) {
        return focus.on_phy(PhyNumber { number }, queue, event);
    }
    focus.keeps(Refusal::NoSuchPhy)
}
