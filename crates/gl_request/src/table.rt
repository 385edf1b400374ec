//! The table of requests.

ghost use Rattle.std.specs.Prelude.{◌≡◌, ◌*◌, ◌<◌, ◌≤◌, ◌++◌, ◌∷◌, [], None, IfOk, IfSome, IsOkUnless, Some, length, drop, is_some, find, position};
ghost use Rattle.std.specs.List.{flat_map};
ghost use Rattle.std.specs.Option.{option_and_then, option_map, option_map_or};
ghost use Rattle.std.specs.VecDeque.{deque_capacity};
ghost use Rattle.gl_base.specs.Lines.{IsLineCount};
ghost use Rattle.gl_base.specs.Rows.{Each, change_first, without_first};
ghost use Rattle.gl_uapi.specs.LineEvent.{event_bytes};
ghost use Rattle.gl_ring.specs.Waiting.{taken, taken_count};
ghost use Rattle.gl_request.specs.Request.{HasLines, HaveDifferentNumbers, StandsAt, claim_by, configured, event_of, held, is_claim_of, is_number, is_open_at, noted, read_from, request_at, row_of, settings_at, AreRising, IsBelow};

use crate::row::{Claim, RequestAt, RequestRow};
use gl_base::{Errno, FILES_MAX, LINES_PER_REQUEST, Lines, Resolved, Settings};
use gl_ring::EdgeRing;
use gl_uapi::Event;
use gl_uapi::layout::LINE_EVENT_SIZE;
use std::alloc::Global;
use std::collections::VecDeque;
use std::marker::Model;

/// The requests, in the order of their claims, which is that of their numbers, since each claim has a higher
/// number than those before. So a request is found by halving. Where one is taken out, those on its shorter side move: none
/// where it is the oldest or the newest. Contracts see the list of them.
#[derive(Drop)]
pub struct Requests {
    rows: VecDeque<RequestRow>,
}

impl Model for Requests {
    ghost use Rattle.std.specs.Prelude.{List, ◌≡◌, ◌≤◌, length};
    ghost use Rattle.std.specs.VecDeque.{deque_capacity};
    ghost use Rattle.gl_base.specs.Rows.{Each};
    ghost use Rattle.gl_base.specs.declared.limits.TheConstants.{FILES_MAX};
    ghost use Rattle.gl_request.specs.declared.row.RequestRow.{RequestRow};

    ghost Value = { List RequestRow };

    ghost use Rattle.gl_request.specs.Request.{AreRising, HasLines};

    ghost view = { λ r. r.rows.items };

    ghost invariant = { λ r. (deque_capacity r.rows ≡ FILES_MAX) × (length r.rows.items ≤ FILES_MAX) × Each HasLines r.rows.items
        × AreRising r.rows.items };
}

impl Requests {
    /// A table without requests, with room for `FILES_MAX` of them. `NoMemory` is its one refusal.
    pub fn new(alloc: Global) -> Result<Requests, Errno>
        ensures ok { IfOk result (λ requests. requests ≡ []) }
        ensures memory_alone { IsOkUnless result Errno.NoMemory }
    {
        let rows = VecDeque::with_capacity(alloc, FILES_MAX as usize)?;
        Ok(Requests { rows })
    }

    /// How many requests there are.
    pub fn len(&self) -> u32
        ensures len { result ≡ length self.now }
        ensures within { result ≤ FILES_MAX }
    {
        self.rows.len() as u32
    }

    /// How many requests there is room for. It is always `FILES_MAX`, since no call but `new` takes memory.
    pub fn capacity(&self) -> u32
        ensures { result ≡ FILES_MAX }
    {
        self.rows.capacity() as u32
    }

    /// Each request has 1 to 64 lines, and room for 1 to 1024 events. The call does nothing: its contract is what is always so.
    pub fn have_limits(&self)
        ensures { Each HasLines self.now }
    {
        let _requests = self.rows.len();
    }

    /// Adds a claim of a number that is above those of the others, behind them. Its ring is empty: no event of it waits.
    #[tactic(auto, using(crate::proofs::Found::kept))]
    pub fn claim(&mut self, claim: Claim, ring: EdgeRing)
        requires room { length self.old < FILES_MAX }
        requires number { Each (IsBelow claim.fd) self.old }
        requires lines { IsLineCount claim.lines.count }
        requires empty { ring.items ≡ [] }
        ensures { self.new ≡ self.old ++ row_of claim ring ∷ [] }
    {
        push_row(&mut self.rows, RequestRow::begin(claim, ring));
    }

    /// The number of an actor's unfinished claim, or None where the actor has none.
    #[tactic(auto, using(crate::proofs::Found::found))]
    pub fn pending(&self, actor: u8) -> Option<u32>
        ensures { result ≡ option_map (λ row. row.fd) (claim_by self.now actor) }
    {
        match claim_position(&self.rows, actor) {
            Some(at) => Some(self.rows[at].fd),
            None => None,
        }
    }

    /// The claim of this number is finished: its lines are held.
    #[tactic(auto, using(crate::proofs::Found::found))]
    pub fn settle(&mut self, fd: u32)
        ensures { self.new ≡ change_first (is_number fd) held self.old }
    {
        match position_of(&self.rows, fd) {
            Some(at) => self.settle_at(RequestAt { fd, at }),
            None => {}
        }
    }

    /// Takes the request of this number out, and answers its ring, or None where there is no such request.
    #[tactic(auto, using(crate::proofs::Found::found))]
    pub fn release(&mut self, fd: u32) -> Option<EdgeRing>
        ensures rows { self.new ≡ without_first (is_number fd) self.old }
        ensures ring { result ≡ option_map (λ row. row.ring) (request_at self.old fd) }
    {
        match position_of(&self.rows, fd) {
            Some(at) => Some(self.take_at(RequestAt { fd, at }).ring),
            None => None,
        }
    }

    /// Where the request of this number stands, or None where there is no such request.
    #[tactic(auto, using(crate::proofs::Found::found, crate::proofs::Found::found_some))]
    pub fn find(&self, fd: u32) -> Option<RequestAt>
        ensures there { is_some result ≡ is_some (request_at self.now fd) }
        ensures number { IfSome result (λ found. found.fd ≡ fd) }
        ensures stands { IfSome result (λ found. StandsAt found self.now) }
    {
        match position_of(&self.rows, fd) {
            Some(at) => Some(RequestAt { fd, at }),
            None => None,
        }
    }

    /// Where the request of this number stands, if it is finished and of this place.
    #[tactic(auto, using(crate::proofs::Found::found))]
    pub fn find_open(&self, place: u8, fd: u32) -> Option<RequestAt>
        ensures open { is_some result ≡ is_open_at place (request_at self.now fd) }
        ensures number { IfSome result (λ found. found.fd ≡ fd) }
        ensures stands { IfSome result (λ found. StandsAt found self.now) }
    {
        match position_of(&self.rows, fd) {
            Some(at) => {
                if self.rows[at].is_open_at(place) {
                    Some(RequestAt { fd, at })
                } else {
                    None
                }
            }
            None => None,
        }
    }

    /// Where an actor's unfinished claim stands, or None where the actor has none.
    #[tactic(auto, using(crate::proofs::Found::found, crate::proofs::Found::claim_found))]
    pub fn find_pending(&self, actor: u8) -> Option<RequestAt>
        requires { HaveDifferentNumbers self.now }
        ensures number { option_map (λ found. found.fd) result ≡ option_map (λ row. row.fd) (claim_by self.now actor) }
        ensures stands { IfSome result (λ found. StandsAt found self.now) }
    {
        match claim_position(&self.rows, actor) {
            Some(at) => Some(RequestAt {
                fd: self.rows[at].fd,
                at,
            }),
            None => None,
        }
    }

    /// The request that was found.
    #[tactic(auto, using(crate::proofs::Found::found, crate::proofs::Found::lines_found, crate::proofs::Found::slots_found))]
    pub fn row(&self, found: RequestAt) -> &RequestRow
        requires { StandsAt found self.now }
        ensures row { request_at self.now found.fd ≡ Some result.now }
        ensures lines { IsLineCount result.now.lines.count }
        ensures slots { length result.now.lines.offsets ≡ LINES_PER_REQUEST }
    {
        &self.rows[found.at]
    }

    /// The claim that was found is finished: its lines are held. It stands there still.
    #[tactic(auto, using(crate::proofs::Found::kept, crate::proofs::Found::stays, crate::proofs::Found::held_there))]
    pub fn settle_at(&mut self, found: RequestAt)
        requires { StandsAt found self.old }
        ensures rows { self.new ≡ change_first (is_number found.fd) held self.old }
        ensures row { request_at self.new found.fd ≡ option_map held (request_at self.old found.fd) }
        ensures stands { StandsAt found self.new }
    {
        settle_row_at(&mut self.rows, found);
    }

    /// Takes the request that was found out of the table.
    #[tactic(auto, using(crate::proofs::Found::kept, crate::proofs::Found::lines_taken))]
    pub fn take_at(&mut self, found: RequestAt) -> RequestRow
        requires { StandsAt found self.old }
        ensures rows { self.new ≡ without_first (is_number found.fd) self.old }
        ensures row { request_at self.old found.fd ≡ Some result }
        ensures lines { IsLineCount result.lines.count }
    {
        take_row_at(&mut self.rows, found)
    }

    /// The place of the chip of the request of this number.
    #[tactic(auto, using(crate::proofs::Found::found))]
    pub fn place(&self, fd: u32) -> Option<u8>
        ensures { result ≡ option_map (λ row. row.place) (request_at self.now fd) }
    {
        match position_of(&self.rows, fd) {
            Some(at) => Some(self.rows[at].place),
            None => None,
        }
    }

    /// The lines of the request of this number.
    #[tactic(auto, using(crate::proofs::Found::found, crate::proofs::Found::lines_found))]
    pub fn lines(&self, fd: u32) -> Option<Lines>
        ensures lines { result ≡ option_map (λ row. row.lines) (request_at self.now fd) }
        ensures count { IfSome result (λ lines. IsLineCount lines.count) }
    {
        match position_of(&self.rows, fd) {
            Some(at) => Some(self.rows[at].lines),
            None => None,
        }
    }

    /// The settings of the line at position `i` of the request of this number, or None where there is no such
    /// request or it has no such line.
    #[tactic(auto, using(crate::proofs::Found::found, crate::proofs::Found::lines_found))]
    pub fn settings(&self, fd: u32, i: u32) -> Option<Settings>
        ensures { result ≡ option_and_then (settings_at i) (request_at self.now fd) }
    {
        match position_of(&self.rows, fd) {
            Some(at) => {
                let row = &self.rows[at];
                if i < row.lines.count.min(LINES_PER_REQUEST) {
                    Some(row.settings.lines[i as usize])
                } else {
                    None
                }
            }
            None => None,
        }
    }

    /// The request of this number has these settings from now on. Its events and their numbers go on.
    #[tactic(auto, using(crate::proofs::Found::found))]
    pub fn configure(&mut self, fd: u32, settings: &Resolved)
        ensures { self.new ≡ change_first (is_number fd) (configured settings.now) self.old }
    {
        match position_of(&self.rows, fd) {
            Some(at) => self.configure_at(RequestAt { fd, at }, settings),
            None => {}
        }
    }

    /// The same, at the request that was found.
    #[tactic(auto, using(crate::proofs::Found::kept))]
    pub fn configure_at(&mut self, found: RequestAt, settings: &Resolved)
        requires { StandsAt found self.old }
        ensures { self.new ≡ change_first (is_number found.fd) (configured settings.now) self.old }
    {
        configure_row_at(&mut self.rows, found, settings);
    }

    /// An edge has come to the line at position `i`, 0 to 63, of the request of this number. Where its direction
    /// is monitored it is an event: it is numbered, waits, and is the answer.
    #[tactic(auto, using(crate::proofs::Found::found))]
    pub fn edge(&mut self, fd: u32, i: u32, rising: bool, timestamp: u64) -> Option<Event>
        requires { i < LINES_PER_REQUEST }
        ensures rows { self.new ≡ change_first (is_number fd) (noted i rising timestamp) self.old }
        ensures event { result ≡ option_and_then (event_of i rising timestamp) (request_at self.old fd) }
    {
        match position_of(&self.rows, fd) {
            Some(at) => self.edge_at(RequestAt { fd, at }, i, rising, timestamp),
            None => None,
        }
    }

    /// The same, at the request that was found.
    #[tactic(auto, using(crate::proofs::Found::kept))]
    pub fn edge_at(
        &mut self,
        found: RequestAt,
        i: u32,
        rising: bool,
        timestamp: u64,
    ) -> Option<Event>
        requires position { i < LINES_PER_REQUEST }
        requires stands { StandsAt found self.old }
        ensures rows { self.new ≡ change_first (is_number found.fd) (noted i rising timestamp) self.old }
        ensures event { result ≡ option_and_then (event_of i rising timestamp) (request_at self.old found.fd) }
    {
        note_edge_at(&mut self.rows, found, i, rising, timestamp)
    }

    /// How many events of the request of this number wait.
    #[tactic(auto, using(crate::proofs::Found::found))]
    pub fn waiting(&self, fd: u32) -> u32
        ensures { result ≡ option_map_or (λ row. length row.ring.items) (request_at self.now fd) 0 }
    {
        match position_of(&self.rows, fd) {
            Some(at) => self.rows[at].ring.len(),
            None => 0,
        }
    }

    /// Moves the first events of the request of this number that wait into `out`, at most `max` of them, as
    /// bytes one after the other, and answers how many. What stands behind them in `out` stays.
    #[tactic(auto, using(crate::proofs::Found::found))]
    pub fn read(&mut self, fd: u32, max: u32, out: &mut [u8]) -> u32
        requires { LINE_EVENT_SIZE * max ≤ length out.old }
        ensures count { result ≡ option_map_or (λ row. taken_count max row.ring) (request_at self.old fd) 0 }
        ensures rows { self.new ≡ change_first (is_number fd) (read_from max) self.old }
        ensures out { out.new ≡ flat_map event_bytes (option_map_or (λ row. taken max row.ring) (request_at self.old fd) [])
            ++ drop (LINE_EVENT_SIZE * result) out.old }
    {
        match position_of(&self.rows, fd) {
            Some(at) => self.read_at(RequestAt { fd, at }, max, out),
            None => 0,
        }
    }

    /// The same, from the request that was found.
    #[tactic(auto, using(crate::proofs::Found::kept))]
    pub fn read_at(&mut self, found: RequestAt, max: u32, out: &mut [u8]) -> u32
        requires room { LINE_EVENT_SIZE * max ≤ length out.old }
        requires stands { StandsAt found self.old }
        ensures count { result ≡ option_map_or (λ row. taken_count max row.ring) (request_at self.old found.fd) 0 }
        ensures rows { self.new ≡ change_first (is_number found.fd) (read_from max) self.old }
        ensures out { out.new ≡ flat_map event_bytes (option_map_or (λ row. taken max row.ring) (request_at self.old found.fd) [])
            ++ drop (LINE_EVENT_SIZE * result) out.old }
    {
        read_row_at(&mut self.rows, found, max, out)
    }
}

/// Adds a row behind the others, where there is room.
fn push_row(rows: &mut VecDeque<RequestRow>, row: RequestRow)
    requires { length rows.old.items < deque_capacity rows.old }
    ensures items { rows.new.items ≡ rows.old.items ++ row ∷ [] }
    ensures capacity { deque_capacity rows.new ≡ deque_capacity rows.old }
{
    rows.push_back_reserved(row);
}

/// Where the request of a number stands, found by halving.
fn position_of(rows: &VecDeque<RequestRow>, fd: u32) -> Option<usize>
    requires { AreRising rows.now.items }
    ensures { result ≡ position (is_number fd) rows.now.items }
{
    match rows.binary_search_by_key(&fd, |row| row.fd) {
        Ok(at) => Some(at),
        Err(_) => None,
    }
}

/// Where an actor's unfinished claim stands.
fn claim_position(rows: &VecDeque<RequestRow>, actor: u8) -> Option<usize>
    ensures { result ≡ position (is_claim_of actor) rows.now.items }
{
    rows.iter().position(|row| !row.held && row.actor == actor)
}

#[tactic(auto, using(crate::proofs::Found::found))]
fn settle_row_at(rows: &mut VecDeque<RequestRow>, found: RequestAt)
    requires { StandsAt found rows.old.items }
    ensures rows { rows.new.items ≡ change_first (is_number found.fd) held rows.old.items }
    ensures capacity { deque_capacity rows.new ≡ deque_capacity rows.old }
{
    rows[found.at].held = true;
}

#[tactic(auto, using(crate::proofs::Found::found))]
fn take_row_at(rows: &mut VecDeque<RequestRow>, found: RequestAt) -> RequestRow
    requires { StandsAt found rows.old.items }
    ensures rows { rows.new.items ≡ without_first (is_number found.fd) rows.old.items }
    ensures row { request_at rows.old.items found.fd ≡ Some result }
    ensures capacity { deque_capacity rows.new ≡ deque_capacity rows.old }
{
    match rows.remove(found.at) {
        Some(row) => row,
        None => unreachable!(),
    }
}

#[tactic(auto, using(crate::proofs::Found::found))]
fn configure_row_at(rows: &mut VecDeque<RequestRow>, found: RequestAt, settings: &Resolved)
    requires { StandsAt found rows.old.items }
    ensures rows { rows.new.items ≡ change_first (is_number found.fd) (configured settings.now) rows.old.items }
    ensures capacity { deque_capacity rows.new ≡ deque_capacity rows.old }
{
    rows[found.at].settings = *settings;
}

#[tactic(auto, using(crate::proofs::Found::found))]
fn note_edge_at(
    rows: &mut VecDeque<RequestRow>,
    found: RequestAt,
    i: u32,
    rising: bool,
    timestamp: u64,
) -> Option<Event>
    requires position { i < LINES_PER_REQUEST }
    requires stands { StandsAt found rows.old.items }
    ensures rows { rows.new.items ≡ change_first (is_number found.fd) (noted i rising timestamp) rows.old.items }
    ensures event { result ≡ option_and_then (event_of i rising timestamp) (request_at rows.old.items found.fd) }
    ensures capacity { deque_capacity rows.new ≡ deque_capacity rows.old }
{
    rows[found.at].note(i, rising, timestamp)
}

#[tactic(auto, using(crate::proofs::Found::found))]
fn read_row_at(rows: &mut VecDeque<RequestRow>, found: RequestAt, max: u32, out: &mut [u8]) -> u32
    requires room { LINE_EVENT_SIZE * max ≤ length out.old }
    requires stands { StandsAt found rows.old.items }
    ensures count { result ≡ option_map_or (λ row. taken_count max row.ring) (request_at rows.old.items found.fd) 0 }
    ensures rows { rows.new.items ≡ change_first (is_number found.fd) (read_from max) rows.old.items }
    ensures out { out.new ≡ flat_map event_bytes (option_map_or (λ row. taken max row.ring) (request_at rows.old.items found.fd) [])
        ++ drop (LINE_EVENT_SIZE * result) out.old }
    ensures capacity { deque_capacity rows.new ≡ deque_capacity rows.old }
{
    rows[found.at].ring.read(max, out)
}
