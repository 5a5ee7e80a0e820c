// What is wrong with three lists, if anything: each test yields its first bad place.
ghost use Rattle.std.specs.Prelude.{◌≡◌, ℕ, ◌+◌, ◌-◌, ◌/◌, ◌<◌, ◌≤◌, true, length, slice_index, take, drop, IsTrue, ◌↔◌};
ghost use Rattle.refusal.specs.Tellings.{told};
ghost use Rattle.refusal.specs.Tests.{between, first_bad, first_false};
ghost use Rattle.process.specs.Process.{weights};
ghost use Rattle.encoding.specs.Lent.{lent};
ghost use Rattle.encoding.specs.Reading.{moves_read, pieces};
ghost use Rattle.encoding.specs.Answers.{answer, lengths_fit, starts as starts_rise, starts_fit, within, move_fits, sum_fits};

use crate::reading::read_move;
use encoding::Lists;
use process::{Move, Place};
use refusal::Refusal;

pub(crate) fn check_lists(scale: u32, lists: Lists<'_>) -> Result<(), Refusal>
    ensures { told result ≡ answer scale (lent lists.entry) }
{
    if let Some(list) = bad_length(lists) {
        return Err(Refusal::TableLength(list));
    }
    if let Some(list) = bad_starts(lists) {
        return Err(Refusal::TableStarts(list));
    }
    if let Some(index) = bad_move(scale, lists.options.len() - 1, lists.moves) {
        return Err(Refusal::TableMove(index));
    }
    if let Some(option) = bad_sum(scale, lists.starts, lists.moves) {
        return Err(Refusal::TableSum(option));
    }
    Ok(())
}

fn bad_length(lists: Lists<'_>) -> Option<usize>
    ensures { result ≡ first_false (lengths_fit (lent lists.entry)) }
{
    first_false([
        length_fits(lists.options.len(), 4097),
        length_fits(lists.starts.len(), 16385),
        length_fits(lists.moves.len(), 131072) && lists.moves.len() % 2 == 0,
    ])
}

fn length_fits(len: usize, most: usize) -> bool
    ensures { result ≡ between 2 most len }
{
    (2..=most).contains(&len)
}

fn bad_starts(lists: Lists<'_>) -> Option<usize>
    requires { 1 ≤ length lists.starts.now }
    ensures { result ≡ first_false (starts_fit (lent lists.entry)) }
{
    // kept: one after the other, since an array of both tests would walk the second list where the first has failed
    if !rising(lists.options, lists.starts.len() - 1) {
        return Some(0);
    }
    if !rising(lists.starts, lists.moves.len() / 2) {
        return Some(1);
    }
    None
}

// the first of several tests that fails
fn first_false<const N: usize>(tests: [bool; N]) -> Option<usize>
    ensures { result ≡ first_false tests.entry }
{
    tests.iter().position(|passed| !passed)
}

// begins at 0, rises strictly and ends at `end`
fn rising(list: &[u32], end: usize) -> bool
    ensures { result ≡ starts_rise list.now end }
{
    // kept: with `first` and `last` the proof has to take their Options apart, and the test is no plainer
    if list.is_empty() || list[0] != 0 {
        return false;
    }
    steps_up(list) && list[list.len() - 1] as usize == end
}

fn steps_up(list: &[u32]) -> bool
    ensures { IsTrue result ↔ ((k : ℕ) → k + 1 < length list.now → slice_index list.now k < slice_index list.now (k + 1)) }
{
    list.windows(2).all(|pair| pair[0] < pair[1])
}

fn bad_move(scale: u32, states: usize, moves: &[u32]) -> Option<usize>
    ensures { result ≡ first_bad (move_fits scale states) 0 (moves_read moves.now) }
{
    // kept: the proof of `position` over chunks does not close
    for (index, pair) in moves.chunks_exact(2).enumerate() {
        if !fits(scale, states, read_move(pair)) {
            return Some(index);
        }
    }
    None
}

fn fits(scale: u32, states: usize, m: Move) -> bool
    ensures { result ≡ move_fits scale states m }
{
    exists(states, m.place) && m.weight <= scale
}

fn exists(states: usize, place: Place) -> bool
    ensures { result ≡ within states place }
{
    match place {
        Place::State(state) => (state as usize) < states,
        Place::End(_) => true,
    }
}

// kept: the limit on the moves bounds a sum two calls below, and no value that could carry it outlives these three
fn bad_sum(scale: u32, starts: &[u32], moves: &[u32]) -> Option<usize>
    requires least { 1 ≤ length starts.now }
    requires rise { starts_rise starts.now (length moves.now / 2) ≡ true }
    requires most { length moves.now ≤ 131072 }
    ensures { result ≡ first_bad (sum_fits scale) 0 (pieces starts.now (moves_read moves.now)) }
{
    // kept: a loop knows what `weight_between` asks of the two ends, and a closure does not
    for (option, ends) in starts.windows(2).enumerate() {
        let (from, to) = (ends[0] as usize, ends[1] as usize);
        if weight_between(moves, from, to) != u64::from(scale) {
            return Some(option);
        }
    }
    None
}

// the weights of the moves from one to another
fn weight_between(moves: &[u32], from: usize, to: usize) -> u64
    requires order { from ≤ to }
    requires within { to ≤ length moves.now / 2 }
    requires most { length moves.now ≤ 131072 }
    ensures { result ≡ weights (take (to - from) (drop from (moves_read moves.now))) }
{
    weight_of(&moves[2 * from..2 * to])
}

// the weights of some moves together
fn weight_of(moves: &[u32]) -> u64
    requires { length moves.now ≤ 131072 }
    ensures { result ≡ weights (moves_read moves.now) }
{
    // kept: the bound of `sum` after `map` over chunks does not close
    let mut sum: u64 = 0;
    for pair in moves.chunks_exact(2) {
        sum += u64::from(pair[1]);
    }
    sum
}
