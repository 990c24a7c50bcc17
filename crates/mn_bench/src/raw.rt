//! The raw block and the lists of triggers against a `Vec`.
ghost use Rattle.std.specs.Prelude.{◌≡◌, ◌+◌, ◌*◌, ◌^◌, ◌<◌, ◌≤◌, [], length, vec_len, OnOk};

use anyhow::Result;
use mn_block::{Block, Place, Stack};
use mn_lists::Lists;
use std::rt::Clock;
use std::time::Instant;

const TURNS: u64 = 200_000_000;

const COPIES: u64 = 200_000;

const MOVES: u64 = 20_000_000;

/// `turns` times reads and writes one word of a block.
#[inline(never)]
fn block_turns(block: &mut Block, turns: u64) -> u64
    requires { length block.old ≡ 8192 }
    ensures { length block.new ≡ 8192 }
{
    let place = Place { first: 0 };
    let mut sum = 0u64;
    for turn in 0..turns {
        let i = (turn % 8192) as usize;
        sum = sum.wrapping_add(block.get(place, i));
        block.set(place, i, turn);
    }
    sum
}

/// The same of a `Vec`.
#[inline(never)]
fn vec_turns(words: &mut Vec<u64>, turns: u64) -> u64
    requires { vec_len words.old ≡ 8192 }
    ensures { vec_len words.new ≡ 8192 }
{
    let mut sum = 0u64;
    for turn in 0..turns {
        let i = (turn % 8192) as usize;
        sum = sum.wrapping_add(words[i]);
        words[i] = turn;
    }
    sum
}

/// `turns` times copies the words onto the stack and back.
#[inline(never)]
fn block_copies(block: &mut Block, stack: &mut Stack, turns: u64) -> Result<u64>
    requires { stack.old ≡ [] }
{
    let mut restored = 0u64;
    for _ in 0..turns {
        block.save(stack)?;
        if block.restore(stack) {
            restored = restored.wrapping_add(1);
        }
    }
    Ok(restored)
}

#[inline(never)]
fn vec_copies(words: &mut Vec<u64>, copy: &mut Vec<u64>, turns: u64)
    requires { vec_len words.old ≡ vec_len copy.old }
{
    for _ in 0..turns {
        copy.as_mut_slice().copy_from_slice(words.as_slice());
        words.as_mut_slice().copy_from_slice(copy.as_slice());
    }
}

fn next_random(state: u64) -> u64 {
    state
        .wrapping_mul(6364136223846793005)
        .wrapping_add(1442695040888963407)
}

#[inline(never)]
fn moves(lists: &mut Lists, turns: u64) -> u64
    requires triggers { lists.old.triggers ≡ 65536 }
    requires lists { length lists.old.lists ≡ 16384 }
{
    let mut state = 1u64;
    for _ in 0..turns {
        state = next_random(state);
        let trigger = ((state >> 33) % 65536) as u32;
        let list = (state >> 49) % 16384;
        lists.move_to(trigger, list);
    }
    state
}

/// As many touches of words at random as a move has nodes.
#[inline(never)]
fn touches(words: &mut Vec<u64>, turns: u64) -> u64
    requires { vec_len words.old ≡ 163840 }
{
    let mut state = 1u64;
    for _ in 0..turns {
        state = next_random(state);
        let a = ((state >> 33) % 163840) as usize;
        let b = ((state >> 40) % 163840) as usize;
        let c = ((state >> 44) % 163840) as usize;
        let d = ((state >> 36) % 163840) as usize;
        let e = ((state >> 30) % 163840) as usize;
        words[a] = words[a].wrapping_add(1);
        words[b] = words[b].wrapping_add(1);
        words[c] = words[c].wrapping_add(1);
        words[d] = words[d].wrapping_add(1);
        words[e] = words[e].wrapping_add(1);
    }
    state
}

fn get_and_set<R: Clock + Print + AllocGlobal>(rt: &R) -> Result<()> {
    let mut block = Block::new(rt.alloc());
    block.extend(8192)?;
    let mut words = Vec::from_elem(rt.alloc(), 0u64, 8192)?;
    let start = Instant::now(rt)?;
    let a = vec_turns(&mut words, TURNS);
    let vec_time = start.elapsed(rt)?.as_micros();
    let start = Instant::now(rt)?;
    let b = block_turns(&mut block, TURNS);
    let block_time = start.elapsed(rt)?.as_micros();
    println!(rt; "get and set, {TURNS} turns: vec {vec_time} us, block {block_time} us ({a} {b})")?;
    Ok(())
}

fn save_and_restore<R: Clock + Print + AllocGlobal>(rt: &R) -> Result<()> {
    let mut block = Block::new(rt.alloc());
    block.extend(8192)?;
    let mut stack = Stack::new(rt.alloc());
    let mut words = Vec::from_elem(rt.alloc(), 0u64, 8192)?;
    let mut copy = Vec::from_elem(rt.alloc(), 0u64, 8192)?;
    let start = Instant::now(rt)?;
    vec_copies(&mut words, &mut copy, COPIES);
    let vec_time = start.elapsed(rt)?.as_micros();
    let start = Instant::now(rt)?;
    let restored = block_copies(&mut block, &mut stack, COPIES)?;
    let block_time = start.elapsed(rt)?.as_micros();
    println!(rt;
        "save and restore of 8192 words, {COPIES} turns: vec {vec_time} us, block {block_time} us ({restored})"
    )?;
    Ok(())
}

fn move_to<R: Clock + Print + AllocGlobal>(rt: &R) -> Result<()> {
    let mut words = Vec::from_elem(rt.alloc(), 0u64, 163840)?;
    let mut lists = Lists::new(rt.alloc(), 16384, 65536, 1)?;
    let start = Instant::now(rt)?;
    let a = touches(&mut words, MOVES);
    let vec_time = start.elapsed(rt)?.as_micros();
    let start = Instant::now(rt)?;
    let b = moves(&mut lists, MOVES);
    let lists_time = start.elapsed(rt)?.as_micros();
    println!(rt;
        "move_to, {MOVES} turns: five words of a vec {vec_time} us, lists {lists_time} us ({a} {b})"
    )?;
    Ok(())
}

//// Prints microseconds, with what was computed in brackets.
pub fn measure<R: Clock + Print + AllocGlobal>(rt: &R) -> Result<()> {
    get_and_set(rt)?;
    save_and_restore(rt)?;
    move_to(rt)
}
