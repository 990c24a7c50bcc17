//! The lists of triggers, a walk along one of them, and the two queues.
ghost use Rattle.std.specs.Prelude.{◌≡◌, ◌<◌, [], ◌++◌, None, Some, IsNone, IsSome, IfOk, IfSome, drop, length, slice_get, slice_index_or};
ghost use Rattle.std.specs.Option.{option_map, option_to_list};
ghost use Rattle.mn_lists.specs.Standing.{EachOnOneList, MovesOnly, ahead, as_made, count_of, moved_to, pushed, without};

use crate::links::Links;
use crate::queue::Queue;
use std::alloc::{AllocError as NoMemory, Global};
use std::marker::Model;

/// Triggers on lists, a walk along one of them, a queue of events, which are numbers of lists, and
/// a queue of constraints. Only `new` takes memory. Each call takes constant time, but for `clear`,
/// whose time is linear in what is queued.
#[derive(Drop)]
pub struct Lists {
    links: Links,
    events: Queue,
    constraints: Queue,
}

impl Model for Lists {
    ghost use Rattle.std.specs.Prelude.{◌≡◌, ◌^◌, ◌<◌, length};
    ghost use Rattle.mn_lists.specs.Standing.{Standing};

    ghost Value = { Standing };

    ghost view = { λ l. record { triggers = l.links.triggers; lists = l.links.lists; walk = l.links.walk; events = l.events.items; cons = l.constraints.numbers; constraints = l.constraints.items } };

    ghost invariant = { λ l. (l.events.numbers ≡ length l.links.lists) × (l.links.triggers < 2 ^ 32) × (l.constraints.numbers < 2 ^ 32) };
}

impl Lists {
    /// Makes `lists` lists, with all triggers on list 0 in order, and empty queues.
    pub fn new(alloc: Global, lists: u64, triggers: u32, cons: u32) -> Result<Lists, NoMemory>
        requires { 0 < lists }
        ensures made { IfOk result (λ l. l ≡ as_made lists triggers cons) }
        ensures count { IfOk result (λ l. length l.lists ≡ lists) }
        ensures one_list { IfOk result (λ l. EachOnOneList l.triggers l.lists) }
    {
        Ok(Lists {
            links: Links::new(alloc, triggers as usize, lists as usize)?,
            events: Queue::new(alloc, lists as usize)?,
            constraints: Queue::new(alloc, cons as usize)?,
        })
    }

    /// Puts trigger `t` at the front of the list and nowhere else. A walk that is under way doesn't
    /// meet it again.
    pub fn move_to(&mut self, t: u32, list: u64)
        requires trigger { t < self.old.triggers }
        requires list { list < length self.old.lists }
        ensures moved { self.new ≡ record self.old { lists = moved_to t list self.old.lists; walk = option_map (without t) self.old.walk } }
        ensures count { length self.new.lists ≡ length self.old.lists }
        ensures one_list { EachOnOneList self.new.triggers self.new.lists }
        ensures only { MovesOnly self.old self.new t list }
    {
        self.links.move_to(t as usize, list as usize);
    }

    /// Begins a walk along the list.
    pub fn walk_open(&mut self, list: u64)
        requires no_walk { IsNone self.old.walk }
        requires list { list < length self.old.lists }
        ensures { self.new ≡ record self.old { walk = Some (slice_index_or self.old.lists list []) } }
    {
        self.links.walk_open(list as usize);
    }

    /// The next trigger of the walk, or None at its end.
    pub fn walk_next(&mut self) -> Option<u32>
        requires { IsSome self.old.walk }
        ensures given { result ≡ slice_get (ahead self.old.walk) 0 }
        ensures walk { self.new ≡ record self.old { walk = Some (drop 1 (ahead self.old.walk)) } }
        ensures front { ahead self.old.walk ≡ option_to_list result ++ ahead self.new.walk }
        ensures trigger { IfSome result (λ t. t < self.old.triggers) }
        ensures once { IfSome result (λ t. count_of t (ahead self.new.walk) ≡ 0) }
    {
        let trigger = self.links.walk_next()?;
        Some(trigger as u32)
    }

    /// Ends the walk.
    pub fn walk_close(&mut self)
        requires { IsSome self.old.walk }
        ensures { self.new ≡ record self.old { walk = None } }
    {
        self.links.walk_close();
    }

    /// Queues the event, if it isn't queued.
    pub fn push_event(&mut self, list: u64)
        requires { list < length self.old.lists }
        ensures { self.new ≡ record self.old { events = pushed list self.old.events } }
    {
        self.events.push(list as usize);
    }

    /// Takes the first queued event.
    pub fn pop_event(&mut self) -> Option<u64>
        ensures given { result ≡ slice_get self.old.events 0 }
        ensures events { self.new ≡ record self.old { events = drop 1 self.old.events } }
        ensures front { self.old.events ≡ option_to_list result ++ self.new.events }
        ensures list { IfSome result (λ l. l < length self.old.lists) }
    {
        let list = self.events.pop()?;
        Some(list as u64)
    }

    /// Queues the constraint, if it isn't queued.
    pub fn push_con(&mut self, c: u32)
        requires { c < self.old.cons }
        ensures { self.new ≡ record self.old { constraints = pushed c self.old.constraints } }
    {
        self.constraints.push(c as usize);
    }

    /// Takes the first queued constraint.
    pub fn pop_con(&mut self) -> Option<u32>
        ensures given { result ≡ slice_get self.old.constraints 0 }
        ensures constraints { self.new ≡ record self.old { constraints = drop 1 self.old.constraints } }
        ensures front { self.old.constraints ≡ option_to_list result ++ self.new.constraints }
        ensures con { IfSome result (λ c. c < self.old.cons) }
    {
        let con = self.constraints.pop()?;
        Some(con as u32)
    }

    /// Empties both queues.
    pub fn clear(&mut self)
        ensures { self.new ≡ record self.old { events = []; constraints = [] } }
    {
        self.events.clear();
        self.constraints.clear();
    }
}

#[cfg(test)]
mod tests {
    use super::*;
    use std::test::Fail;

    // Where memory was refused nothing is left behind, so the lists are made once more.
    fn made(alloc: Global) -> Result<Lists, NoMemory>
        ensures made { IfOk result (λ l. l ≡ as_made 3 4 2) }
    {
        match Lists::new(alloc, 3, 4, 2) {
            Ok(lists) => Ok(lists),
            Err(NoMemory) => Lists::new(alloc, 3, 4, 2),
        }
    }

    #[test]
    fn walks_past_what_moves(rt: HostRuntime) -> Result<(), Fail> {
        let mut lists = made(rt.alloc())?;
        lists.move_to(2, 1);
        lists.move_to(0, 1);
        lists.walk_open(1);
        assert_eq!(rt; lists.walk_next(), Some(0));
        lists.move_to(0, 1);
        lists.move_to(3, 1);
        assert_eq!(rt; lists.walk_next(), Some(2));
        assert_eq!(rt; lists.walk_next(), None);
        lists.walk_close();
        lists.walk_open(1);
        assert_eq!(rt; lists.walk_next(), Some(3));
        assert_eq!(rt; lists.walk_next(), Some(0));
        assert_eq!(rt; lists.walk_next(), Some(2));
        assert_eq!(rt; lists.walk_next(), None);
        Ok(())
    }

    #[test]
    fn starts_on_the_first_list(rt: HostRuntime) -> Result<(), Fail> {
        let mut lists = made(rt.alloc())?;
        lists.walk_open(0);
        lists.move_to(1, 2);
        assert_eq!(rt; lists.walk_next(), Some(0));
        assert_eq!(rt; lists.walk_next(), Some(2));
        assert_eq!(rt; lists.walk_next(), Some(3));
        assert_eq!(rt; lists.walk_next(), None);
        Ok(())
    }

    #[test]
    fn queues_once_in_order(rt: HostRuntime) -> Result<(), Fail> {
        let mut lists = made(rt.alloc())?;
        lists.push_event(2);
        lists.push_event(0);
        lists.push_event(2);
        assert_eq!(rt; lists.pop_event(), Some(2));
        lists.push_event(2);
        assert_eq!(rt; lists.pop_event(), Some(0));
        assert_eq!(rt; lists.pop_event(), Some(2));
        assert_eq!(rt; lists.pop_event(), None);
        lists.push_con(1);
        lists.push_con(0);
        lists.push_con(1);
        assert_eq!(rt; lists.pop_con(), Some(1));
        lists.push_event(1);
        lists.clear();
        assert_eq!(rt; (lists.pop_con(), lists.pop_event()), (None, None));
        lists.push_con(0);
        assert_eq!(rt; lists.pop_con(), Some(0));
        Ok(())
    }
}
