// What each event but a tick does, a function for each, in the paper's order. What no arm lists changes
// nothing.
ghost use Rattle.std.specs.Prelude.{◌≡◌};
ghost use Rattle.phy.specs.Moves.{to_idle, open_by_link, on_tx_open, on_cancel_open, on_close_connection, on_smp_transmit_break, on_accept, on_open_received, on_open_accept, reject_answer, on_open_reject, on_aip, on_break, on_close, on_reset};

use crate::names::*;
use crate::shapes::FRESH;
use crate::{Phy, Settings, Stepped};
use event::{Event, Open, SMP};
use table::{OFF, ON, Refusal};

// Entering L0: a request that waits is answered, with the reason where one was kept; a connection is over.
#[tactic(auto, unfolding(crate::specs::Moves::to_idle))]
pub(crate) fn to_idle(p: Phy, sent: u64) -> Stepped
    ensures { result ≡ to_idle p sent }
{
    let idle = p.idle();
    match p.port {
        P2 => idle.answers(ANSWER_COLLIDED, p.request, 0, sent),
        P4 => idle.answers(p.reason, p.request, 0, sent),
        P3 => idle.reports(NOTICE_TRANSITION_TO_IDLE, sent),
        _ => idle.reports(0, sent),
    }
}

#[tactic(auto, unfolding(crate::specs::Moves::open_by_link))]
fn open_by_link(p: Phy, o: Open) -> Stepped
    ensures { result ≡ open_by_link p o }
{
    let asking = p.with_request(o);
    match p.link {
        L0 => asking.requesting(L1, FULL_TIMER).reports(0, SENT_OPEN),
        L2 => asking.selected(p.inboundSource, p.inboundProtocol).quiet(),
        L6 => asking.requesting(L6, 0).quiet(),
        _ => p.quiet(),
    }
}

#[tactic(auto, unfolding(crate::specs::Moves::on_tx_open))]
pub(crate) fn on_tx_open(p: Phy, e: Event) -> Stepped
    ensures { result ≡ on_tx_open p e }
{
    if p.port == P1 {
        return open_by_link(p, e.into());
    }
    p.refused(Refusal::Busy)
}

// With L2 or L6 no OPEN of ours is out that could be taken back: the cancel is accepted and forgotten.
#[tactic(auto, unfolding(crate::specs::Moves::on_cancel_open))]
pub(crate) fn on_cancel_open(p: Phy) -> Stepped
    ensures { result ≡ on_cancel_open p }
{
    if p.port == P2 {
        return match p.link {
            L1 => p
                .given_up(L5, FULL_TIMER, ANSWER_PORT_LAYER_REQUEST)
                .reports(0, SENT_BREAK),
            _ => p.quiet(),
        };
    }
    p.refused(Refusal::NothingPending)
}

#[tactic(auto, unfolding(crate::specs::Moves::on_close_connection))]
pub(crate) fn on_close_connection(p: Phy) -> Stepped
    ensures { result ≡ on_close_connection p }
{
    if p.link == L3 {
        if p.farClosed == ON {
            return p.idle().reports(NOTICE_CLOSED_NORMAL, SENT_CLOSE);
        }
        return p
            .connected(L4, FULL_TIMER, p.connectionProtocol, OFF)
            .reports(0, SENT_CLOSE);
    }
    p.refused(Refusal::NotConnected)
}

#[tactic(auto, unfolding(crate::specs::Moves::on_smp_transmit_break))]
pub(crate) fn on_smp_transmit_break(p: Phy) -> Stepped
    ensures { result ≡ on_smp_transmit_break p }
{
    let protocol = p.connectionProtocol;
    if p.link == L3 {
        if protocol == SMP {
            return p
                .connected(L5, FULL_TIMER, protocol, OFF)
                .reports(NOTICE_BREAK_REQUESTED, SENT_BREAK);
        }
        return p.refused(Refusal::WrongProtocol);
    }
    p.refused(Refusal::NotConnected)
}

#[tactic(auto, unfolding(crate::specs::Moves::on_accept))]
pub(crate) fn on_accept(p: Phy, accept: u64) -> Stepped
    ensures { result ≡ on_accept p accept }
{
    p.with_settings(Settings { accept }).quiet()
}

// An OPEN that is reported in L1 outranks ours: the chip has arbitrated, so there is nothing to compare.
#[tactic(auto, unfolding(crate::specs::Moves::on_open_received))]
pub(crate) fn on_open_received(p: Phy, e: Event) -> Stepped
    ensures { result ≡ on_open_received p e }
{
    match p.link {
        L0 | L1 => p.selected(e.first, e.second).quiet(),
        _ => p.quiet(),
    }
}

#[tactic(auto, unfolding(crate::specs::Moves::on_open_accept))]
pub(crate) fn on_open_accept(p: Phy) -> Stepped
    ensures { result ≡ on_open_accept p }
{
    let request = p.request;
    match p.link {
        L1 => {
            let next = p.connected(L3, 0, request.protocol, OFF);
            next.answers(ANSWER_OPENED, request, NOTICE_OPENED, 0)
        }
        _ => p.quiet(),
    }
}

// A table by the paper's number, which C hands in: an enum of its rows would be this table once more.
#[tactic(auto, unfolding(crate::specs::Moves::reject_answer))]
fn reject_answer(reason: u64) -> u64
    ensures { result ≡ reject_answer reason }
{
    match reason {
        0 => ANSWER_RETRY,
        1 => ANSWER_NO_DESTINATION,
        2 => ANSWER_PATHWAY_BLOCKED,
        3 => ANSWER_BAD_DESTINATION,
        4 => ANSWER_RATE,
        5 => ANSWER_PROTOCOL,
        6 => ANSWER_STP_BUSY,
        7 => ANSWER_WRONG_DESTINATION,
        _ => 0,
    }
}

// In L5 the request is given up already, and the reason is not looked at.
#[tactic(auto, unfolding(crate::specs::Moves::on_open_reject))]
pub(crate) fn on_open_reject(p: Phy, e: Event) -> Stepped
    ensures { result ≡ on_open_reject p e }
{
    match p.link {
        L1 => p.idle().answers(reject_answer(e.first), p.request, 0, 0),
        L5 => to_idle(p, 0),
        _ => p.quiet(),
    }
}

// In L5 an AIP does nothing: the request is given up already.
#[tactic(auto, unfolding(crate::specs::Moves::on_aip))]
pub(crate) fn on_aip(p: Phy) -> Stepped
    ensures { result ≡ on_aip p }
{
    match p.link {
        L1 => p.with_timer(FULL_TIMER).quiet(),
        _ => p.quiet(),
    }
}

#[tactic(auto, unfolding(crate::specs::Moves::on_break))]
pub(crate) fn on_break(p: Phy) -> Stepped
    ensures { result ≡ on_break p }
{
    match p.link {
        L1 => p
            .given_up(L6, 0, ANSWER_BREAK_RECEIVED)
            .reports(0, SENT_BREAK),
        L2 => p.requesting(L6, 0).reports(0, SENT_BREAK),
        L3 | L4 => {
            let next = p.connected(L6, 0, p.connectionProtocol, OFF);
            next.reports(NOTICE_BREAK_RECEIVED, SENT_BREAK)
        }
        L5 => to_idle(p, 0),
        _ => p.quiet(),
    }
}

#[tactic(auto, unfolding(crate::specs::Moves::on_close))]
pub(crate) fn on_close(p: Phy) -> Stepped
    ensures { result ≡ on_close p }
{
    match p.link {
        L3 => p.connected(L3, 0, p.connectionProtocol, ON).quiet(),
        L4 => p.idle().reports(NOTICE_CLOSED_NORMAL, 0),
        _ => p.quiet(),
    }
}

// A reset sends nothing and clears the accept flag.
#[tactic(auto, unfolding(crate::specs::Moves::on_reset))]
pub(crate) fn on_reset(p: Phy) -> Stepped
    ensures { result ≡ on_reset p }
{
    match p.port {
        P2 | P4 => FRESH.answers(ANSWER_TERMINATED, p.request, 0, 0),
        P3 => FRESH.reports(NOTICE_RESET, 0),
        _ => FRESH.quiet(),
    }
}
