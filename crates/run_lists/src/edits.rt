//! One run that is written, and where.
//!
//! An edit has two positions. That among the runs that were there (`from`) never changes; that among all runs (`at`) is one further for
//! each run that an edit before it adds. So edits are found by `at`, and written by it, the first one first.
ghost use Rattle.std.specs.Prelude.{◌≡◌, ◌+◌, ◌≤◌, length, IfOk};
ghost use Rattle.std.specs.Option.{option_copied};
ghost use Rattle.run_lists.specs.Edits.{added_run, AreInOrder, AreCounted, AreFewFrom, AreBelow, AreFrom, IsFound, added_by, moved_from, positions_in};

use sched_state::Run;
use std::alloc::{AllocError, Global};
use std::marker::Model;

/// A run that is written over another, or added.
#[derive(Debug, Drop)]
pub struct Edit {
    // Its position among all runs, the added ones too.
    pub(crate) at: usize,
    // How many of the runs that were there stand before it.
    pub(crate) from: usize,
    // Whether it is added: otherwise it hides the run that was there at `from`.
    pub(crate) is_new: bool,
    pub(crate) run: Run,
}

/// What an event makes of the runs that were there: edits in the order of their positions.
///
/// Contracts see the list of them.
#[derive(Debug, Drop)]
pub struct Edits {
    pub(crate) edits: Vec<Edit>,
}

impl Model for Edits {
    ghost use Rattle.std.specs.Prelude.{List};
    ghost use Rattle.run_lists.specs.declared.edits.Edit.{Edit};

    ghost Value = { List Edit };

    ghost view = { λ e. e.edits.items };
}

impl Edit {
    /// The run that it adds, where it adds one.
    pub fn added(&self) -> Option<&Run>
        ensures { option_copied result ≡ added_run self.now }
    {
        if self.is_new { Some(&self.run) } else { None }
    }
}

impl Edits {
    /// The edits, in the order of their positions.
    pub fn as_slice(&self) -> &[Edit]
        ensures { result.now ≡ self.now }
    {
        self.edits.as_slice()
    }
}

// How many edits are of positions below.
pub(crate) fn place_of(edits: &[Edit], position: usize) -> usize
    requires { AreInOrder edits.now }
    ensures below { AreBelow result position edits.now }
    ensures from { AreFrom result position edits.now }
{
    edits.partition_point(|edit| edit.at < position)
}

// Where the edit of a position is, or where it would be.
pub(crate) fn find(edits: &[Edit], position: usize) -> Result<usize, usize>
    requires { AreInOrder edits.now }
    ensures { IsFound position edits.now result }
{
    let place = place_of(edits, position);
    if place < edits.len() && edits[place].at == position {
        Ok(place)
    } else {
        Err(place)
    }
}

// How many runs the edits before a place add, which the last of them knows.
fn added_before(edits: &[Edit], place: usize) -> usize
    requires counted { AreCounted 0 edits.now }
    requires within { place ≤ length edits.now }
    ensures { result ≡ added_by place edits.now }
{
    if place == 0 {
        return 0;
    }
    let last = &edits[place - 1];
    if last.is_new {
        last.at - last.from + 1
    } else {
        last.at - last.from
    }
}

// The edits from a place on are of positions one further on.
pub(crate) fn move_up(edits: &mut [Edit], place: usize)
    requires { AreFewFrom place edits.old }
    ensures { edits.new ≡ moved_from place edits.old }
{
    for index in place..edits.len() {
        let edit = &mut edits[index];
        edit.at += 1;
    }
}

// Which of the runs that were there stands at a position of which no edit is; those before `place` are of positions below.
pub(crate) fn base_position(edits: &[Edit], place: usize, position: usize) -> usize
    requires counted { AreCounted 0 edits.now }
    requires below { AreBelow place position edits.now }
    ensures { result + added_by place edits.now ≡ position }
{
    position - added_before(edits, place)
}

// How many runs the edits add.
pub(crate) fn all_added(edits: &[Edit]) -> usize
    requires { AreCounted 0 edits.now }
    ensures { result ≡ added_by (length edits.now) edits.now }
{
    added_before(edits, edits.len())
}

// The positions of the edits.
pub fn positions(alloc: Global, edits: &[Edit]) -> Result<Vec<usize>, AllocError>
    ensures { IfOk result (λ positions. positions.items ≡ positions_in edits.now) }
{
    edits.iter().map(|edit| edit.at).collect(alloc)
}
