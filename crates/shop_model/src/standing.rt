//! The cells of stations and classes: which they have at the start, and which they may have.
ghost use Rattle.std.specs.Prelude.{◌≡◌, ◌<◌, ◌≤◌, ◌+◌, ◌*◌, ◌^◌, [], ◌∷◌, IfOk, length, map, replicate, reverse, nat_lt, count_by, sum_by};
ghost use Rattle.std.specs.List.{list_all, range_with_len};
ghost use Rattle.delta_exchange.specs.Changes.{line_of};
ghost use Rattle.shop_model.specs.declared.station.TheConstants.{MOST_LEVELS};
ghost use Rattle.shop_model.specs.Parts.{AreRoutes};
ghost use Rattle.shop_model.specs.HasStation.{IsStation};
ghost use Rattle.shop_model.specs.Classes.{is_class_cells, first_class_cells};
ghost use Rattle.shop_model.specs.Stations.{is_entry, is_level, waiting_at, has_servers, is_station_cells, first_station_cells};

use crate::class::{Class, INSIDE, MADE};
use crate::job::BIRTHS;
use crate::levels::{EMPTY, Level};
use crate::routes::Routes;
use crate::station::{
    DOWN, ENTRIES, FREE_SERVERS, GONE, HELD, LINES_A_LEVEL, OPEN, STANDS_STILL, Station, WAITING,
};
use model_core::{Cells, OutOfMemory};
use std::alloc::{AllocError, Global};

/// The cells of a class at the start: no job is made, and none is inside.
pub(crate) fn first_class_cells(alloc: Global) -> Result<Cells, OutOfMemory>
    ensures { IfOk result (λ cells. cells.contents ≡ first_class_cells) }
{
    Cells::of_words(alloc, &[0, 0, 0])
}

impl Class {
    /// Whether no more jobs are inside than were made, and no more were made than may be.
    pub(crate) fn is_lawful(&self, cells: &Cells) -> bool
        ensures { result ≡ is_class_cells self.now.count cells.now.contents }
    {
        if cells.words() != 3 || cells.lines() != 0 {
            return false;
        }
        cells.word(INSIDE) <= cells.word(MADE) && cells.word(MADE) <= u64::from(self.count)
    }
}

impl Station {
    /// The cells at the start: all servers are free, so many are open, and nobody waits.
    #[tactic(auto, unfolding(crate::specs::Stations::first_station_cells))]
    pub(crate) fn first_cells(&self, alloc: Global) -> Result<Cells, OutOfMemory>
        requires { IsStation self.now }
        ensures { IfOk result (λ cells. cells.contents ≡ first_station_cells self.now) }
    {
        let words = self.first_words(alloc)?;
        let lines = self.first_lines(alloc)?;
        Cells::new(alloc, words, lines)
    }

    /// The words at the start.
    fn first_words(&self, alloc: Global) -> Result<Vec<u64>, AllocError>
        requires { IsStation self.now }
        ensures { IfOk result (λ words. words.items ≡ 0 ∷ self.now.servers ∷ replicate (4 + self.now.levels + self.now.most) 0) }
    {
        let mut words = vec![in alloc; 0, u64::from(self.servers)]?;
        for _ in 0..4 + self.levels + self.most {
            words.push(0)?;
        }
        Ok(words)
    }

    /// The lines at the start.
    fn first_lines(&self, alloc: Global) -> Result<Vec<Vec<u64>>, AllocError>
        requires { IsStation self.now }
        ensures { IfOk result (λ lines. map (λ line. line.items) lines.items
            ≡ reverse (range_with_len 0 self.now.most) ∷ replicate (4 * self.now.levels) []) }
    {
        let free = servers(alloc, self.most)?;
        let mut lines = vec![in alloc; free]?;
        for _ in 0..LINES_A_LEVEL * self.levels {
            lines.push(Vec::new(alloc))?;
        }
        Ok(lines)
    }

    /// Whether the numbers of the servers and of the jobs that wait are within their bounds, and agree with the lines.
    #[tactic(auto, unfolding(crate::specs::Stations::is_station_cells))]
    pub(crate) fn is_lawful(&self, object: u32, routes: &Routes, cells: &Cells) -> bool
        requires routes { AreRoutes routes.now }
        requires station { IsStation self.now }
        ensures { result ≡ is_station_cells object routes.now self.now cells.now.contents }
    {
        if cells.words() != GONE + self.levels + self.most
            || cells.lines() != ENTRIES + LINES_A_LEVEL * self.levels
        {
            return false;
        }
        if !self.has_levels(object, routes, cells) || !self.has_servers(cells) {
            return false;
        }
        let waiting = self.waiting(cells);
        cells.word(DOWN) <= STANDS_STILL
            && u128::from(cells.word(WAITING)) == waiting
            && waiting <= u128::from(self.line + self.most)
    }

    /// Whether no more servers are open and free than there are, and no more held than free.
    #[tactic(auto, unfolding(crate::specs::Stations::has_servers))]
    fn has_servers(&self, cells: &Cells) -> bool
        requires words { 2 < length cells.now.contents.words }
        requires lines { 0 < length cells.now.contents.lines }
        ensures { result ≡ has_servers self.now cells.now.contents }
    {
        let most = u64::from(self.most);
        let free = cells.line_len(FREE_SERVERS) as u64;
        cells.word(OPEN) <= most
            && cells.word(HELD) <= free
            && free <= most
            && are_below(cells, FREE_SERVERS, most)
    }

    /// Whether each level has entries.
    fn has_levels(&self, object: u32, routes: &Routes, cells: &Cells) -> bool
        requires routes { AreRoutes routes.now }
        requires station { IsStation self.now }
        requires lines { length cells.now.contents.lines ≡ 1 + 4 * self.now.levels }
        ensures { result ≡ list_all (λ level. is_level object routes.now cells.now.contents level) (range_with_len 0 self.now.levels) }
    {
        for level in 0..self.levels {
            if !is_level(object, routes, cells, level) {
                return false;
            }
        }
        true
    }

    /// How many jobs wait at all levels.
    fn waiting(&self, cells: &Cells) -> u128
        requires station { IsStation self.now }
        requires lines { length cells.now.contents.lines ≡ 1 + 4 * self.now.levels }
        ensures { result ≡ sum_by (λ level. waiting_at cells.now.contents level) (range_with_len 0 self.now.levels) }
    {
        let mut waiting: u128 = 0;
        for level in 0..self.levels {
            waiting += waiting_at(cells, level) as u128;
        }
        waiting
    }
}

/// So many servers, the greatest first.
fn servers(alloc: Global, count: u32) -> Result<Vec<u64>, AllocError>
    ensures { IfOk result (λ servers. servers.items ≡ reverse (range_with_len 0 count)) }
{
    let mut servers = Vec::new(alloc);
    for server in 0..count {
        servers.push(u64::from(server))?;
    }
    servers.reverse();
    Ok(servers)
}

/// Whether the four lines of a level are as long as one another, and hold jobs that wait at this object.
#[tactic(auto, unfolding(crate::specs::Stations::is_level))]
fn is_level(object: u32, routes: &Routes, cells: &Cells, level: u32) -> bool
    requires routes { AreRoutes routes.now }
    requires level { level < MOST_LEVELS }
    requires lines { 4 + 4 * level < length cells.now.contents.lines }
    ensures { result ≡ is_level object routes.now cells.now.contents level }
{
    let lines = Level::at(level);
    let entries = cells.line_len(lines.jobs);
    cells.line_len(lines.births) == entries
        && cells.line_len(lines.since) == entries
        && cells.line_len(lines.until) == entries
        && are_entries(object, routes, cells, lines.jobs)
        && are_below(cells, lines.births, BIRTHS)
}

/// Whether a line holds jobs that wait at this object, or such jobs with each bit turned.
fn are_entries(object: u32, routes: &Routes, cells: &Cells, line: u32) -> bool
    requires routes { AreRoutes routes.now }
    requires line { line < length cells.now.contents.lines }
    ensures { result ≡ list_all (λ a. is_entry object routes.now a) (line_of cells.now.contents line) }
{
    for place in 0..cells.line_len(line) {
        if !is_entry(object, routes, cells.line_at(line, place)) {
            return false;
        }
    }
    true
}

/// Whether this is a job that waits at this object, or such a job with each bit turned.
#[tactic(auto, unfolding(crate::specs::Stations::is_entry))]
fn is_entry(object: u32, routes: &Routes, a: u64) -> bool
    requires { AreRoutes routes.now }
    ensures { result ≡ is_entry object routes.now a }
{
    routes.visit(object, a.min(u64::MAX - a)).is_some()
}

/// Whether each value of a line is below a bound.
fn are_below(cells: &Cells, line: u32, bound: u64) -> bool
    requires line { line < length cells.now.contents.lines }
    ensures { result ≡ list_all (λ value. nat_lt value bound) (line_of cells.now.contents line) }
{
    for place in 0..cells.line_len(line) {
        if cells.line_at(line, place) >= bound {
            return false;
        }
    }
    true
}

/// How many jobs wait at a level.
#[tactic(auto, unfolding(crate::specs::Stations::waiting_at))]
fn waiting_at(cells: &Cells, level: u32) -> usize
    requires level { level < MOST_LEVELS }
    requires lines { 4 + 4 * level < length cells.now.contents.lines }
    ensures { result ≡ waiting_at cells.now.contents level }
{
    let jobs = Level::at(level).jobs;
    let mut waiting = 0;
    for place in 0..cells.line_len(jobs) {
        if cells.line_at(jobs, place) < EMPTY {
            waiting += 1;
        }
    }
    waiting
}
