ghost use Rattle.std.specs.Prelude.{◌≡◌, ◌≤◌, ◌<◌, ◌+◌, ◌++◌, length, map, All, IfOk};
ghost use Rattle.cmm_types.specs.declared.event.Event.TheVariants.{Cpu, Alone as AloneEvent, Host as HostEvent, Reclaim};
ghost use Rattle.cmm_types.specs.declared.event.Answer.TheVariants.{Turn as TurnAnswer, Alone as AloneAnswer};
ghost use Rattle.cmm_types.specs.declared.plan.Scenario.{Scenario};
ghost use Rattle.cmm_types.specs.declared.plan.TheConstants.{MAX_GUEST_PAGES};
ghost use Rattle.cmm_types.specs.InRange.{EventInRange, ScenarioInRange};
ghost use Rattle.cmm_world.specs.WorldState.{WorldState, guest_at, disk_at};
ghost use Rattle.cmm_world.specs.WorldView.{WorldView, opening_view, plans_of, world_words};
ghost use Rattle.cmm_world.specs.WorldFit.{WorldFit, KeepsWorld};
ghost use Rattle.cmm_world.specs.Failures.{WorldCounted};
ghost use Rattle.cmm_world.specs.Run.{applied_answer, answers_of, world_after};
ghost use Rattle.cmm_world.specs.Steps.{IsStepByStep, TakesNoneAgain, AtEach};
ghost use Rattle.cmm_world.specs.Caused.{IsCaused};
ghost use Rattle.cmm_world.specs.Reached.{ReachesPages};
ghost use Rattle.cmm_world.specs.Lacking.{LacksRightly};
ghost use Rattle.cmm_world.specs.Played.{PlaysEvent};
ghost use Rattle.cmm_world.specs.Headline.{IsLegalRun};

use crate::open::{open_disks, open_guests, open_host};
use cmm_io::MemDisk;
use cmm_types::{Alone, Answer, Event, Move, Scenario, Turn};
use essa_state::Word;
use guest_core::Guest;
use host_plain::{ApplyError, Host};
use std::alloc::{AllocError, Global};
use std::marker::Model;

/// The guests of a scenario, each with its disk, and the host that has their pages.
#[derive(Drop)]
pub struct World {
    guests: Vec<Guest>,
    disks: Vec<MemDisk>,
    host: Host,
    answers: Vec<Answer>,
    /// How many answers there is room for: one for each event of the schedule.
    events: usize,
}

impl Model for World {
    ghost use Rattle.std.specs.Prelude.{◌≤◌, vec_capacity};
    ghost use Rattle.cmm_world.specs.WorldState.{WorldState};
    ghost use Rattle.cmm_world.specs.WorldView.{WorldView};
    ghost use Rattle.cmm_world.specs.WorldFit.{IsWorld};

    ghost Value = { WorldView };

    ghost view = { λ w. record { state = record { guests = w.guests.items; disks = w.disks.items; host = w.host }; answers = w.answers.items; events = w.events } };

    ghost invariant = { λ w. IsWorld (record { guests = w.guests.items; disks = w.disks.items; host = w.host }) × (w.events ≤ vec_capacity w.answers) };
}

fn applied_answer(made: Result<(), ApplyError>) -> Answer
    ensures { result ≡ applied_answer made }
{
    match made {
        Ok(()) => Answer::HostDone,
        Err(ApplyError::Refused(why)) => Answer::HostRefused(why),
        Err(ApplyError::Paging) => Answer::HostPaging,
    }
}

impl World {
    /// The world of a scenario before its first event. It takes all memory that its events need.
    pub fn open(alloc: Global, plan: &Scenario) -> Result<World, AllocError>
        requires { ScenarioInRange plan.now }
        ensures opening { IfOk result (λ world. world ≡ opening_view plan.now) }
        ensures plans { IfOk result (λ world. plans_of world.state ≡ plan.now.guests) }
        ensures fit { IfOk result (λ world. WorldFit world.state) }
        ensures failures { IfOk result (λ world. WorldCounted world.state) }
    {
        let guests = open_guests(alloc, plan.guests.as_slice())?;
        let disks = open_disks(alloc, plan.guests.as_slice())?;
        let events = plan.schedule.len();
        let answers = Vec::with_capacity(alloc, events)?;
        // Last, so that nothing is refused once there are frames.
        let host = open_host(alloc, plan)?;
        Ok(World {
            guests,
            disks,
            host,
            answers,
            events,
        })
    }

    /// Makes the events in order, and keeps their answers behind those kept before.
    pub fn replay(&mut self, events: &[Event])
        requires range { All (EventInRange (plans_of self.old.state)) events.now }
        requires room { length self.old.answers + length events.now ≤ self.old.events }
        ensures answers { self.new.answers ≡ self.old.answers ++ answers_of self.old.state events.now }
        ensures state { self.new.state ≡ world_after self.old.state events.now }

        // Each event is its single steps, none of which discards wrongly.
        ensures steps { AtEach IsStepByStep self.old.state events.now }

        // Each turn, and each processor that went on alone, answered so for its cause.
        ensures causes { AtEach IsCaused self.old.state events.now }

        // No turn has to be taken again.
        ensures again { AtEach TakesNoneAgain self.old.state events.now }

        // Each load and store that was neither refused nor failed has reached its page.
        ensures reached { AtEach ReachesPages self.old.state events.now }

        // Each command that fails for the want of a page is of a guest that has none and can make none free.
        ensures lacks { AtEach LacksRightly self.old.state events.now }

        ensures kept { KeepsWorld self.old self.new }

        // The run of a plan is legal, as a world plays it that was opened for that plan.
        ensures legal { (plan : Scenario) → self.old ≡ opening_view plan → events.now ≡ plan.schedule → IsLegalRun plan }
    {
        self.fits();
        for event in events {
            let answer = self.event(event);
            self.answers.push_reserved(answer);
        }
    }

    /// One event: a processor's turn or turns, a move of the host on a page, or the reclaiming of frames. Its answer isn't
    /// kept.
    pub fn event(&mut self, event: &Event) -> Answer
        requires { EventInRange (plans_of self.old.state) event.now }
        ensures { PlaysEvent self.old event.now result self.new }
    {
        match event {
            Event::Cpu { guest, cpu } => Answer::Turn(self.turn(*guest, *cpu)),
            Event::Alone { guest, cpu } => Answer::Alone(self.alone(*guest, *cpu)),
            Event::Host {
                guest,
                page,
                action,
            } => self.host_move(*guest, *page, *action),
            Event::Reclaim { count } => self.reclaim(*count),
        }
    }

    // What the type keeps, as a fact: nothing is done.
    fn fits(&self)
        ensures { KeepsWorld self.now self.now }
    {
        let _ = self.guests.len();
    }

    fn turn(&mut self, guest: u32, cpu: u32) -> Turn
        requires { EventInRange (plans_of self.old.state) (Cpu guest cpu) }
        ensures { PlaysEvent self.old (Cpu guest cpu) (TurnAnswer result) self.new }
    {
        let mut pages = self.host.view(guest);
        self.guests[guest as usize].step(cpu, &mut pages, &mut self.disks[guest as usize])
    }

    fn alone(&mut self, guest: u32, cpu: u32) -> Alone
        requires { EventInRange (plans_of self.old.state) (AloneEvent guest cpu) }
        ensures { PlaysEvent self.old (AloneEvent guest cpu) (AloneAnswer result) self.new }
    {
        let mut pages = self.host.view(guest);
        self.guests[guest as usize].alone(cpu, &mut pages, &mut self.disks[guest as usize])
    }

    fn host_move(&mut self, guest: u32, page: u32, action: Move) -> Answer
        requires { EventInRange (plans_of self.old.state) (HostEvent guest page action) }
        ensures { PlaysEvent self.old (HostEvent guest page action) result self.new }
    {
        applied_answer(self.host.apply(guest, page, action))
    }

    fn reclaim(&mut self, count: u32) -> Answer
        ensures { PlaysEvent self.old (Reclaim count) result self.new }
    {
        let reclaimed = self.host.reclaim(count);
        Answer::Reclaimed {
            count: reclaimed.count,
            paging: reclaimed.paging,
        }
    }

    /// How many guests there are.
    pub fn guests(&self) -> u32
        ensures { result ≡ length self.now.state.guests }
    {
        self.guests.len() as u32
    }

    /// The answers that were kept.
    pub fn answers(&self) -> &[Answer]
        ensures { result.now ≡ self.now.answers }
    {
        self.answers.as_slice()
    }

    pub fn guest(&self, guest: u32) -> &Guest
        requires { guest < length self.now.state.guests }
        ensures { result.now ≡ guest_at self.now.state guest }
    {
        &self.guests[guest as usize]
    }

    pub fn disk(&self, guest: u32) -> &MemDisk
        requires { guest < length self.now.state.guests }
        ensures { result.now ≡ disk_at self.now.state guest }
    {
        &self.disks[guest as usize]
    }

    /// The state words of a guest's pages.
    pub fn words(&self, guest: u32) -> &[Word]
        requires { guest < length self.now.state.guests }
        ensures words { result.now ≡ world_words self.now.state guest }
        ensures few { length result.now ≤ MAX_GUEST_PAGES }
    {
        self.host.words(guest)
    }

    /// Takes the world apart, and closes the region of its frames, of which none is missing. It takes no memory.
    pub fn close(self) {
        let (region, frames) = self.host.into_frames();
        match region.close(frames) {
            Ok(()) => {}
            Err(_) => unreachable!(),
        }
    }
}
