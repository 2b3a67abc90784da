//! How the tree and the log agree.
ghost use Rattle.std.specs.Prelude.{◌≡◌, ◌∷◌, [], List, ℕ, ℤ, map, IfOk, OnOk, option_map, unwrap_or, is_none};
ghost use Rattle.std.specs.List.{find as find_by, filter_map};
ghost use Rattle.kz_types.specs.Order.{bytes_cmp};
ghost use Rattle.kz_types.specs.Ordered.{all_put, Rises};
ghost use Rattle.kz_spec_data.specs.Tree.{migration_record, unclosed_path, path_of_rendered};
ghost use Rattle.kz_spec_data.specs.Log.{image_at, image_of, batch_ends};
ghost use Rattle.kz_spec_data.specs.Rendering.{body_at, render};
ghost use Rattle.kz_spec_machine.specs.Verdicts.{paths_at, verdict, verdict_at, verdict_of};
ghost use Rattle.kz_verdict.specs.Agreement.{agrees_in, paths_from, unmarked, found_among, marked_by, marked_here, found_at, is_disagreeing, ahead_of, found_verdict};

use kz_image::Image;
use kz_log::LogRows;
use kz_order::compare;
use kz_render::render;
use kz_sorted::find_near;
use kz_tree::Tree;
use kz_types::{
    AheadPath, Duplicate, MIGRATION, NoMemory, Recorded, Rendered, Sequence, Verdict, ZPath,
};
use std::alloc::Global;
use std::cmp::Ordering;

/// What is found at a path of the tree or of what should stand there.
#[derive(Drop)]
pub struct Found {
    /// The path.
    pub path: ZPath,
    /// Whether the tree is as rendered at the recorded offset.
    pub here: bool,
    /// The first batch end, from the recorded offset on, at which the tree is as rendered.
    pub first: Option<i64>,
}

/// Places in two lists of znodes: the migrated area and a rendering.
#[derive(Clone, Copy)]
pub struct Places {
    /// The place in the migrated area.
    pub area: usize,
    /// The place in the rendering.
    pub rendering: usize,
}

impl Places {
    // A place in the migrated area and one in the rendering.
    fn new(area: usize, rendering: usize) -> Self
        ensures { result ≡ record { area = area; rendering = rendering } }
    {
        Places { area, rendering }
    }
}

// The body at a path, which is looked for near a place first, and the place for the next path.
fn body_near<'a>(znodes: &'a [Rendered], path: &[u8], place: usize) -> (Option<&'a [u8]>, usize)
    requires { Rises bytes_cmp path_of_rendered znodes.now }
    ensures { option_map (λ body. body.now) result.0 ≡ body_at path.now znodes.entry.now }
{
    match find_near(znodes, path, place) {
        (Some(znode), at) => (Some(znode.body.as_slice()), at.saturating_add(1)),
        (None, at) => (None, at),
    }
}

// Whether two lists of znodes agree at a path, absence included. The path is looked for near these places first, which are then
// those for the next path.
fn agrees(area: &[Rendered], rendering: &[Rendered], path: &[u8], places: &mut Places) -> bool
    requires area { Rises bytes_cmp path_of_rendered area.now }
    requires rendering { Rises bytes_cmp path_of_rendered rendering.now }
    ensures { result ≡ agrees_in area.now rendering.now path.now }
{
    let (left, next) = body_near(area, path, places.area);
    places.area = next;
    let (right, next) = body_near(rendering, path, places.rendering);
    places.rendering = next;
    match (left, right) {
        (None, None) => true,
        (Some(left), Some(right)) => left == right,
        (None, Some(_)) => false,
        (Some(_), None) => false,
    }
}

// The znodes of the metadata at an offset. The metadata at the log's end isn't made again.
fn rendering_at(
    alloc: Global,
    log: &LogRows,
    last: &Image,
    offset: i64,
) -> Result<Vec<Rendered>, NoMemory>
    requires { last.now ≡ image_of log.now }
    ensures znodes { IfOk result (λ znodes. znodes.items ≡ render (image_at log.now offset)) }
    ensures rising { IfOk result (λ znodes. Rises bytes_cmp path_of_rendered znodes.items) }
{
    if offset == log.end() {
        return render(alloc, last);
    }
    let image = log.image_at(alloc, offset)?;
    render(alloc, &image)
}

// The next path of two lists from these places on, and the places after it.
fn next_path<'a>(
    area: &'a [Rendered],
    rendering: &'a [Rendered],
    at: Places,
) -> Option<(&'a ZPath, Places)>
    requires { Rises bytes_cmp path_of_rendered rendering.now }
    ensures { unwrap_or (option_map (λ next. next.0.now ∷ paths_from area.entry.now rendering.entry.now next.1) result) [] ≡ paths_from area.entry.now rendering.entry.now at }
{
    let (i, j) = (at.area, at.rendering);
    if area.len() <= i {
        if rendering.len() <= j {
            return None;
        }
        return Some((&rendering[j].path, Places::new(i, j + 1)));
    }
    if rendering.len() <= j {
        return Some((&area[i].path, Places::new(i + 1, j)));
    }
    let (left, right) = (&area[i].path, &rendering[j].path);
    match compare(left.bytes(), right.bytes()) {
        Ordering::Less => Some((left, Places::new(i + 1, j))),
        Ordering::Equal => Some((left, Places::new(i + 1, j + 1))),
        Ordering::Greater => Some((right, Places::new(i, j + 1))),
    }
}

// What is found at every path of two lists, in path order, before any batch end is looked at.
fn all_found(
    alloc: Global,
    area: &[Rendered],
    rendering: &[Rendered],
) -> Result<Vec<Found>, NoMemory>
    requires area { Rises bytes_cmp path_of_rendered area.now }
    requires rendering { Rises bytes_cmp path_of_rendered rendering.now }
    ensures { IfOk result (λ found. found.items ≡ map (unmarked area.now rendering.now) (map path_of_rendered (all_put bytes_cmp path_of_rendered rendering.now area.now))) }
{
    let mut found = Vec::new(alloc);
    let mut at = Places::new(0, 0);
    let mut places = Places::new(0, 0);
    while let Some((path, next)) = next_path(area, rendering, at) {
        let here = agrees(area, rendering, path.bytes(), &mut places);
        found.push(Found {
            path: path.copy(alloc)?,
            here,
            first: None,
        })?;
        at = next;
    }
    Ok(found)
}

// What is found at every path of the area and of the rendering at an offset, before any batch end is looked at.
fn found_there(
    alloc: Global,
    log: &LogRows,
    last: &Image,
    offset: i64,
    area: &[Rendered],
) -> Result<Vec<Found>, NoMemory>
    requires rises { Rises bytes_cmp path_of_rendered area.now }
    requires last { last.now ≡ image_of log.now }
    ensures { IfOk result (λ found. found.items ≡ map (found_among area.now log.now offset []) (map path_of_rendered (all_put bytes_cmp path_of_rendered (render (image_at log.now offset)) area.now))) }
{
    let rendering = rendering_at(alloc, log, last, offset)?;
    let found = all_found(alloc, area, &rendering)?;
    Ok(found)
}

// Marks what is found at a path with one batch end more, where the area is there as in this rendering.
fn mark_one(
    one: &mut Found,
    end: i64,
    area: &[Rendered],
    rendering: &[Rendered],
    places: &mut Places,
)
    requires area { Rises bytes_cmp path_of_rendered area.now }
    requires rendering { Rises bytes_cmp path_of_rendered rendering.now }
    ensures { one.new ≡ marked_by end area.now rendering.now one.old }
{
    if agrees(area, rendering, one.path.bytes(), places) {
        one.first = Some(end);
    }
}

// Marks what is found at each path with one batch end more, where the area is there as in this rendering.
fn mark_each(end: i64, area: &[Rendered], rendering: &[Rendered], found: &mut Vec<Found>)
    requires area { Rises bytes_cmp path_of_rendered area.now }
    requires rendering { Rises bytes_cmp path_of_rendered rendering.now }
    ensures { found.new.items ≡ map (marked_by end area.now rendering.now) found.old.items }
{
    let mut places = Places::new(0, 0);
    for at in 0..found.len() {
        mark_one(&mut found[at], end, area, rendering, &mut places);
    }
}

// Marks what is found at a path with the recorded offset, where the area is there as rendered at that offset.
fn mark_one_here(one: &mut Found, offset: i64)
    ensures { one.new ≡ marked_here offset one.old }
{
    if one.here {
        one.first = Some(offset);
    }
}

// Marks what is found at each path with the recorded offset, where the area is there as rendered at that offset.
fn mark_each_here(offset: i64, found: &mut Vec<Found>)
    ensures { found.new.items ≡ map (marked_here offset) found.old.items }
{
    for at in 0..found.len() {
        mark_one_here(&mut found[at], offset);
    }
}

// Marks what is found at each path with one batch end more, where the area is there as rendered at that end. An end before the
// offset marks nothing.
fn mark_end(
    alloc: Global,
    log: &LogRows,
    last: &Image,
    offset: i64,
    end: i64,
    area: &[Rendered],
    found: &mut Vec<Found>,
) -> Result<(), NoMemory>
    requires rises { Rises bytes_cmp path_of_rendered area.now }
    requires last { last.now ≡ image_of log.now }
    ensures { (ends : List ℤ) (paths : List (List ℕ)) → found.old.items ≡ map (found_among area.now log.now offset ends) paths → OnOk result (found.new.items ≡ map (found_among area.now log.now offset (end ∷ ends)) paths) }
{
    if end < offset {
        return Ok(());
    }
    if end == offset {
        mark_each_here(end, found);
        return Ok(());
    }
    let rendering = rendering_at(alloc, log, last, end)?;
    mark_each(end, area, &rendering, found);
    Ok(())
}

// Marks what is found at each path with the first batch end, from an offset on, at which the area is as rendered there.
fn mark_all(
    alloc: Global,
    log: &LogRows,
    last: &Image,
    offset: i64,
    area: &[Rendered],
    found: &mut Vec<Found>,
) -> Result<(), NoMemory>
    requires rises { Rises bytes_cmp path_of_rendered area.now }
    requires last { last.now ≡ image_of log.now }
    ensures { (paths : List (List ℕ)) → found.old.items ≡ map (found_among area.now log.now offset []) paths → OnOk result (found.new.items ≡ map (found_among area.now log.now offset (batch_ends log.now)) paths) }
{
    let ends = log.batch_ends(alloc)?;
    let count = ends.len();
    for done in 0..count {
        let end = ends[count - 1 - done];
        mark_end(alloc, log, last, offset, end, area, found)?;
    }
    Ok(())
}

// What is found at every path of the area and of the rendering at an offset.
fn find_all(
    alloc: Global,
    tree: &Tree,
    log: &LogRows,
    last: &Image,
    offset: i64,
) -> Result<Vec<Found>, NoMemory>
    requires { last.now ≡ image_of log.now }
    ensures { IfOk result (λ found. found.items ≡ map (found_at tree.now log.now offset) (paths_at tree.now log.now offset)) }
{
    let area = tree.area()?;
    let mut found = found_there(alloc, log, last, offset, &area)?;
    mark_all(alloc, log, last, offset, &area, &mut found)?;
    Ok(found)
}

// The first path that disagrees.
fn disagreeing(found: &[Found], is_closed: bool) -> Option<&Found>
    ensures { option_map (λ one. one.now) result ≡ find_by (is_disagreeing is_closed) found.entry.now }
{
    found
        .iter()
        .find(|one| one.first.is_none() || (is_closed && !one.here))
}

// A path at which the tree is ahead.
fn ahead_of(alloc: Global, found: &Found) -> Result<Option<AheadPath>, NoMemory>
    ensures { IfOk result (λ ahead. ahead ≡ ahead_of found.now) }
{
    match found.first {
        Some(offset) if !found.here => Ok(Some(AheadPath {
            path: found.path.copy(alloc)?,
            offset,
        })),
        _ => Ok(None),
    }
}

// The paths at which the tree is ahead.
fn all_ahead(alloc: Global, found: &[Found]) -> Result<Sequence<AheadPath>, NoMemory>
    ensures { IfOk result (λ paths. paths ≡ filter_map ahead_of found.now) }
{
    let mut paths = Sequence::new(alloc);
    for one in found {
        if let Some(path) = ahead_of(alloc, one)? {
            paths.push(path)?;
        }
    }
    Ok(paths)
}

// How the tree and the log agree, by what is found.
fn verdict_of_found(
    alloc: Global,
    offset: i64,
    is_closed: bool,
    found: &[Found],
) -> Result<Verdict, NoMemory>
    ensures { IfOk result (λ verdict. verdict ≡ found_verdict offset is_closed found.now) }
{
    match disagreeing(found, is_closed) {
        Some(one) => Ok(Verdict::Disagrees {
            path: one.path.copy(alloc)?,
        }),
        None if is_closed => Ok(Verdict::Closed { offset }),
        None => Ok(Verdict::Ahead {
            offset,
            paths: all_ahead(alloc, found)?,
        }),
    }
}

// How the tree and the log agree, where an offset is recorded.
#[tactic(auto, using(crate::proofs::Agreements::verdict_found))]
fn verdict_at(
    alloc: Global,
    tree: &Tree,
    log: &LogRows,
    last: &Image,
    offset: i64,
) -> Result<Verdict, NoMemory>
    requires { last.now ≡ image_of log.now }
    ensures { IfOk result (λ verdict. verdict ≡ verdict_at tree.now log.now offset (is_none (unclosed_path tree.now))) }
{
    let is_closed = tree.unclosed()?.is_none();
    let found = find_all(alloc, tree, log, last, offset)?;
    verdict_of_found(alloc, offset, is_closed, &found)
}

// How the tree and a migrated log agree.
fn verdict_of(alloc: Global, tree: &Tree, log: &LogRows, last: &Image) -> Result<Verdict, NoMemory>
    requires { last.now ≡ image_of log.now }
    ensures { IfOk result (λ verdict. verdict ≡ verdict_of tree.now log.now (migration_record tree.now)) }
{
    match tree.recorded()? {
        Some(Recorded { offset, .. }) if offset >= 0 => {
            verdict_at(alloc, tree, log, last, offset)
        }
        _ => Ok(Verdict::Unrecorded),
    }
}

/// How the tree and the log agree, path by path: the log isn't migrated; nothing is recorded; a path disagrees, the first
/// such; the tree is as the metadata is rendered at the recorded offset; or it is ahead of that, at these paths.
#[tactic(auto, unfolding(kz_spec_machine::specs::Verdicts::verdict))]
pub fn verdict(alloc: Global, tree: &Tree, log: &LogRows) -> Result<Verdict, NoMemory>
    ensures { IfOk result (λ told. told ≡ verdict tree.now log.now) }
{
    let last = log.image_at(alloc, log.end())?;
    if last.state() < MIGRATION {
        return Ok(Verdict::Unmigrated);
    }
    verdict_of(alloc, tree, log, &last)
}
