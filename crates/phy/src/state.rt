// Which records are valid.
ghost use Rattle.std.specs.Prelude.{◌≡◌, ◌&&◌, eqb, leb};
ghost use Rattle.phy.specs.Names.{P1 as NamesP1, P2 as NamesP2, P3 as NamesP3, P4 as NamesP4, full_timer};
ghost use Rattle.phy.specs.State.{valid_part, valid_settings, valid_in};
ghost use Rattle.phy.specs.Promises.{TellsValid};

use crate::names::*;
use crate::{Phy, Settings};
use event::{MOST_WAIT, NO_OPEN, STP, open_known};
use table::{OFF, ON};

// The timer of L1, L4 and L5.
fn runs(timer: u64) -> bool
    ensures { result ≡ (leb 1 timer && leb timer full_timer) }
{
    (1 <= timer) & (timer <= FULL_TIMER)
}

// The part of a millisecond in P2: in use from the bend on, until the wait is at its most.
fn valid_part(wait: u64, part: u64) -> bool
    ensures { result ≡ valid_part NamesP2 wait part }
{
    let counts = (BEND <= wait) & (wait < MOST_WAIT);
    (counts & (part <= MOST_PART)) | (!counts & (part == 0))
}

// Neither a source nor an inbound protocol is kept.
fn nobody(p: Phy) -> bool
    ensures { result ≡ (eqb p.inboundSource 0 && eqb p.inboundProtocol 0) }
{
    (p.inboundSource == 0) & (p.inboundProtocol == 0)
}

// Each setting is a flag.
fn valid_settings(settings: Settings) -> bool
    ensures { result ≡ valid_settings settings }
{
    settings.accept <= ON
}

// P1, with each link state that it goes with: one test for each rule, in the paper's order. What the pair
// settles is not tested again, and no test branches, so that those of a pair are made at once.
#[tactic(auto, unfolding(crate::specs::State::valid_inbound, crate::specs::State::valid_request))]
fn valid_idle(p: Phy) -> bool
    ensures { result ≡ valid_in NamesP1 p }
{
    let request = p.request;
    let set = valid_settings(p.settings);
    let unused = (p.timer == 0) & (request == NO_OPEN) & (p.part == 0) & (p.reason == 0);
    let unlinked = p.connectionProtocol == 0;
    let unclosed = p.farClosed == OFF;
    match p.link {
        L0 => unused & nobody(p) & unlinked & unclosed & set,
        L2 => unused & (p.inboundProtocol <= STP) & unlinked & unclosed & set,
        L6 => unused & nobody(p) & unlinked & unclosed & set,
        _ => false,
    }
}

#[tactic(auto, unfolding(crate::specs::State::valid_inbound, crate::specs::State::valid_request))]
fn valid_requesting(p: Phy) -> bool
    ensures { result ≡ valid_in NamesP2 p }
{
    let request = p.request;
    let timer = p.timer;
    let set = valid_settings(p.settings);
    let asked = open_known(request);
    let counted = valid_part(request.wait, p.part);
    let no_reason = p.reason == 0;
    let unlinked = p.connectionProtocol == 0;
    let unclosed = p.farClosed == OFF;
    match p.link {
        L1 => runs(timer) & asked & counted & no_reason & nobody(p) & unlinked & unclosed & set,
        L2 => (timer == 0)
            & asked
            & counted
            & no_reason
            & (p.inboundProtocol <= STP)
            & unlinked
            & unclosed
            & set,
        L6 => (timer == 0) & asked & counted & no_reason & nobody(p) & unlinked & unclosed & set,
        _ => false,
    }
}

#[tactic(auto, unfolding(crate::specs::State::valid_inbound, crate::specs::State::valid_request))]
fn valid_connected(p: Phy) -> bool
    ensures { result ≡ valid_in NamesP3 p }
{
    let request = p.request;
    let timer = p.timer;
    let set = valid_settings(p.settings);
    let unused = request == NO_OPEN;
    let no_part = p.part == 0;
    let no_reason = p.reason == 0;
    let linked = p.connectionProtocol <= STP;
    let unclosed = p.farClosed == OFF;
    match p.link {
        L3 => (timer == 0)
            & unused
            & no_part
            & no_reason
            & nobody(p)
            & linked
            & (p.farClosed <= ON)
            & set,
        L4 => runs(timer) & unused & no_part & no_reason & nobody(p) & linked & unclosed & set,
        L5 => runs(timer) & unused & no_part & no_reason & nobody(p) & linked & unclosed & set,
        L6 => (timer == 0) & unused & no_part & no_reason & nobody(p) & linked & unclosed & set,
        _ => false,
    }
}

#[tactic(auto, unfolding(crate::specs::State::valid_inbound, crate::specs::State::valid_request))]
fn valid_closing(p: Phy) -> bool
    ensures { result ≡ valid_in NamesP4 p }
{
    let request = p.request;
    let timer = p.timer;
    let reason = p.reason;
    let set = valid_settings(p.settings);
    let asked = open_known(request);
    let no_part = p.part == 0;
    let given_up = (reason == ANSWER_OPEN_TIMEOUT) | (reason == ANSWER_PORT_LAYER_REQUEST);
    let broken = reason == ANSWER_BREAK_RECEIVED;
    let unlinked = p.connectionProtocol == 0;
    let unclosed = p.farClosed == OFF;
    match p.link {
        L5 => runs(timer) & asked & no_part & given_up & nobody(p) & unlinked & unclosed & set,
        L6 => (timer == 0) & asked & no_part & broken & nobody(p) & unlinked & unclosed & set,
        _ => false,
    }
}

#[tactic(auto, unfolding(crate::specs::State::valid_of))]
pub fn valid(p: Phy) -> bool
    ensures { TellsValid p result }
{
    match p.port {
        P1 => valid_idle(p),
        P2 => valid_requesting(p),
        P3 => valid_connected(p),
        P4 => valid_closing(p),
        _ => false,
    }
}
