//! The lists as circles of nodes. Node `k` is trigger `k`, and node `triggers + l` is the head of list
//! `l`. Each list is a circle through its head, so a move is the same at each place of a list.
ghost use Rattle.std.specs.Prelude.{◌≡◌, ◌+◌, ◌^◌, ◌<◌, [], None, Some, IsSome, IfOk, IfSome, length, slice_get, slice_index_or, drop};
ghost use Rattle.std.specs.Option.{option_map};
ghost use Rattle.mn_lists.specs.Circles.{skip};
ghost use Rattle.mn_lists.specs.Row.{HasNode, IsClosed, StandsAtFirst, first_next, next_node, prev_node, joined, unlinked, inserted};
ghost use Rattle.mn_lists.specs.Standing.{EachOnOneList, all_on_first, ahead, count_of, moved_to, without};

use mn_block::words::{MOST_WORDS, Words};
use std::alloc::{AllocError as NoMemory, Global};
use std::cmp::Ordering;
use std::marker::Model;

#[derive(Drop)]
pub(crate) struct Links {
    // The next and the previous node of node `k` are the words `2 * k` and `2 * k + 1`.
    row: Words,
    triggers: usize,
    heads: usize,
    // The node at which the walk goes on.
    cursor: Option<usize>,
}

impl Model for Links {
    ghost use Rattle.mn_lists.specs.Links.{AreLinks, TriggerLists, trigger_lists};

    ghost Value = { TriggerLists };

    ghost view = { λ l. trigger_lists l.row l.triggers l.heads l.cursor };

    ghost invariant = { λ l. AreLinks l.row l.triggers l.heads l.cursor };
}

fn next(row: &[u64], node: usize) -> usize
    requires { HasNode row.now node }
    ensures { result ≡ next_node row.now node }
{
    row[2 * node] as usize
}

fn prev(row: &[u64], node: usize) -> usize
    requires { HasNode row.now node }
    ensures { result ≡ prev_node row.now node }
{
    row[2 * node + 1] as usize
}

// Makes `after` the node that follows `node`.
fn join(row: &mut [u64], node: usize, after: usize)
    requires node { HasNode row.old node }
    requires after { HasNode row.old after }
    ensures { row.new ≡ joined row.old node after }
{
    row[2 * node] = after as u64;
    row[2 * after + 1] = node as u64;
}

// The node after `node` at the beginning: the triggers stand on the first list, in order, and each
// other head leads to itself.
fn starting_next(triggers: usize, node: usize) -> usize
    requires { node + 1 < 2 ^ 64 }
    ensures { result ≡ first_next triggers node }
{
    match node.cmp(&triggers) {
        Ordering::Less => node + 1,
        Ordering::Equal => 0,
        Ordering::Greater => node,
    }
}

// Links all nodes as they stand at the beginning.
fn link_all(row: &mut [u64], triggers: usize)
    requires { HasNode row.old triggers }
    ensures { StandsAtFirst row.new triggers }
{
    for node in 0..row.len() / 2 {
        join(row, node, starting_next(triggers, node));
    }
}

// Takes `node` out of its circle.
fn unlink(row: &mut [u64], node: usize)
    requires node { HasNode row.old node }
    requires prev { HasNode row.old (prev_node row.old node) }
    requires next { HasNode row.old (next_node row.old node) }
    ensures { row.new ≡ unlinked row.old node }
{
    join(row, prev(row, node), next(row, node));
}

// Puts `node` between `head` and the node after it.
fn insert(row: &mut [u64], head: usize, node: usize)
    requires head { HasNode row.old head }
    requires next { HasNode row.old (next_node row.old head) }
    requires node { HasNode row.old node }
    ensures { row.new ≡ inserted row.old head node }
{
    let first = next(row, head);
    join(row, head, node);
    join(row, node, first);
}

// Takes `node` out of its circle and puts it behind `head`.
fn move_node(row: &mut Words, node: usize, head: usize)
    requires closed { IsClosed row.old }
    requires node { HasNode row.old node }
    requires head { HasNode row.old head }
    ensures { row.new ≡ inserted (unlinked row.old node) head node }
{
    let row = row.as_mut_slice();
    unlink(row, node);
    insert(row, head, node);
}

// Where a walk goes on once `node` is out of its circle.
fn passed(row: &[u64], cursor: Option<usize>, node: usize) -> Option<usize>
    requires { HasNode row.now node }
    ensures { result ≡ option_map (skip (next_node row.now) node) cursor }
{
    match cursor {
        Some(at) if at == node => Some(next(row, node)),
        other => other,
    }
}

impl Links {
    // All triggers stand on the first list, in order.
    pub(crate) fn new(alloc: Global, triggers: usize, heads: usize) -> Result<Links, NoMemory>
        requires { 0 < heads }
        ensures triggers { IfOk result (λ l. l.triggers ≡ triggers) }
        ensures lists { IfOk result (λ l. l.lists ≡ all_on_first triggers heads) }
        ensures walk { IfOk result (λ l. l.walk ≡ None) }
        ensures one_list { IfOk result (λ l. EachOnOneList l.triggers l.lists) }
    {
        let most = MOST_WORDS / 2;
        if most < triggers || most - triggers < heads {
            return Err(NoMemory);
        }
        let mut row = Words::zeroed(alloc, 2 * (triggers + heads))?;
        link_all(row.as_mut_slice(), triggers);
        Ok(Links {
            row,
            triggers,
            heads,
            cursor: None,
        })
    }

    pub(crate) fn move_to(&mut self, trigger: usize, list: usize)
        requires trigger { trigger < self.old.triggers }
        requires list { list < length self.old.lists }
        ensures triggers { self.new.triggers ≡ self.old.triggers }
        ensures lists { self.new.lists ≡ moved_to trigger list self.old.lists }
        ensures walk { self.new.walk ≡ option_map (without trigger) self.old.walk }
        ensures count { length self.new.lists ≡ length self.old.lists }
        ensures one_list { EachOnOneList self.new.triggers self.new.lists }
    {
        let head = self.triggers + list;
        self.cursor = passed(self.row.as_slice(), self.cursor, trigger);
        move_node(&mut self.row, trigger, head);
    }

    pub(crate) fn walk_open(&mut self, list: usize)
        requires { list < length self.old.lists }
        ensures triggers { self.new.triggers ≡ self.old.triggers }
        ensures lists { self.new.lists ≡ self.old.lists }
        ensures walk { self.new.walk ≡ Some (slice_index_or self.old.lists list []) }
    {
        let head = self.triggers + list;
        self.cursor = Some(next(self.row.as_slice(), head));
    }

    pub(crate) fn walk_next(&mut self) -> Option<usize>
        requires { IsSome self.old.walk }
        ensures given { result ≡ slice_get (ahead self.old.walk) 0 }
        ensures triggers { self.new.triggers ≡ self.old.triggers }
        ensures lists { self.new.lists ≡ self.old.lists }
        ensures walk { self.new.walk ≡ Some (drop 1 (ahead self.old.walk)) }
        ensures trigger { IfSome result (λ t. t < self.old.triggers) }
        ensures once { IfSome result (λ t. count_of t (ahead self.new.walk) ≡ 0) }
    {
        let node = self.cursor?;
        if node >= self.triggers {
            return None;
        }
        self.cursor = Some(next(self.row.as_slice(), node));
        Some(node)
    }

    pub(crate) fn walk_close(&mut self)
        ensures triggers { self.new.triggers ≡ self.old.triggers }
        ensures lists { self.new.lists ≡ self.old.lists }
        ensures walk { self.new.walk ≡ None }
    {
        self.cursor = None;
    }
}
