//! How many steps a turn may have.
ghost use Rattle.std.specs.Prelude.{◌≡◌, ◌≤◌, List, ℤ, false, IfOk, if◌then◌else◌};
ghost use Rattle.kz_spec_data.specs.Image.{Image as ImageValue, empty_image, all_applied, is_migrated_state};
ghost use Rattle.kz_spec_data.specs.Log.{batch_ends, image_of};
ghost use Rattle.kz_spec_data.specs.Tree.{migrated_rows};
ghost use Rattle.kz_spec_data.specs.Rendering.{render};
ghost use Rattle.kz_spec_data.specs.Translation.{translate};
ghost use Rattle.kz_spec_machine.specs.Driver.{epoch_or_zero, is_one_of};
ghost use Rattle.kz_spec_machine.specs.Machine.{amount_of_znodes as amount_of_all, translated_count, remaining_amount, work};
ghost use Rattle.kz_driver.specs.Drivers.{shared_of};
ghost use Rattle.kz_world_parts.specs.Amounts.{amount_at_offset, remaining_by};
ghost use Rattle.kz_world_parts.specs.Starts.{final_znodes_of, most_from, start_of};

use crate::amount::{Amount, amount_of_area, amount_of_ops, amount_of_znodes, most_steps};
use crate::whole_read::read_whole;
use kz_driver::Driver;
use kz_image::Image;
use kz_log::{LogRows, MetaLog};
use kz_reader::{ReadFault, translate};
use kz_render::render;
use kz_tree::Tree;
use kz_types::{DriverState, Duplicate, MIGRATION, MetaRecord, NoMemory, Op};
use std::alloc::Global;
use std::marker::Model;

// The znodes that the metadata is rendered as.
fn rendered_amount(alloc: Global, image: &Image) -> Result<Amount, NoMemory>
    ensures { IfOk result (λ amount. amount ≡ amount_of_all (render image.now)) }
{
    let znodes = render(alloc, image)?;
    Ok(amount_of_znodes(&znodes))
}

// The znodes that these records, of a batch of this epoch, are rendered as.
fn records_amount(alloc: Global, epoch: i32, records: &[MetaRecord]) -> Result<Amount, NoMemory>
    ensures { IfOk result (λ amount. amount ≡ amount_of_all (render (all_applied epoch records.now empty_image))) }
{
    let mut image = Image::new(alloc);
    image.apply_all(epoch, records)?;
    rendered_amount(alloc, &image)
}

// Whether an offset is the base or the last one of a batch.
fn is_batch_end(alloc: Global, log: &LogRows, offset: i64) -> Result<bool, NoMemory>
    ensures { IfOk result (λ is_end. is_end ≡ is_one_of (batch_ends log.now) offset) }
{
    let ends = log.batch_ends(alloc)?;
    Ok(ends.contains(&offset))
}

// The znodes that the metadata at an offset is rendered as, where the offset is a batch end.
fn amount_at(alloc: Global, log: &LogRows, offset: i64) -> Result<Amount, NoMemory>
    ensures { IfOk result (λ amount. amount ≡ amount_at_offset log.now offset) }
{
    if !is_batch_end(alloc, log, offset)? {
        return Ok(Amount::none());
    }
    let image = log.image_at(alloc, offset)?;
    rendered_amount(alloc, &image)
}

// The znodes that the metadata at an offset of a log that isn't down is rendered as, where the offset is a batch end. The log
// is read whole.
fn amount_in<L: MetaLog>(alloc: Global, log: &mut L, offset: i64) -> Result<Amount, NoMemory>
    requires { (L.disk log.old).down ≡ false }
    ensures ok { IfOk result (λ amount. amount ≡ amount_at_offset (L.log log.old) offset) }
    ensures same { L.log log.new ≡ L.log log.old }
    ensures disk { L.disk log.new ≡ L.disk log.old }
{
    let rows = read_whole(log)?;
    amount_at(alloc, &rows, offset)
}

// What may remain to be written in this state, with a target of this offset and these operations. The log is read where a
// resync has no operations yet.
fn remaining_by<L: MetaLog>(
    alloc: Global,
    log: &mut L,
    state: DriverState,
    target: Option<i64>,
    ops: &[Op],
) -> Result<Amount, NoMemory>
    requires { (L.disk log.old).down ≡ false }
    ensures ok { IfOk result (λ amount. amount ≡ remaining_by (L.log log.old) state target ops.now) }
    ensures same { L.log log.new ≡ L.log log.old }
    ensures disk { L.disk log.new ≡ L.disk log.old }
{
    match (state, target, ops) {
        (DriverState::SyncKraftToZk, Some(offset), []) => amount_in(alloc, log, offset),
        _ => Ok(amount_of_ops(ops)),
    }
}

// What may remain to be written of what a driver has under way.
#[tactic(auto, using(crate::proofs::Stages::remaining_told))]
fn remaining_amount<L: MetaLog>(
    alloc: Global,
    log: &mut L,
    driver: &Driver,
) -> Result<Amount, NoMemory>
    requires { (L.disk log.old).down ≡ false }
    ensures ok { IfOk result (λ amount. amount ≡ remaining_amount (L.log log.old) driver.now.stage) }
    ensures same { L.log log.new ≡ L.log log.old }
    ensures disk { L.disk log.new ≡ L.disk log.old }
{
    remaining_by(
        alloc,
        log,
        driver.state(),
        driver.target(),
        driver.remaining(),
    )
}

// The epoch of a driver, 0 where it has none.
fn epoch_or_zero(epoch: Option<i32>) -> i32
    ensures { result ≡ epoch_or_zero epoch }
{
    match epoch {
        Some(epoch) => epoch,
        None => 0,
    }
}

// How many records the tree translates to, and the znodes that these are rendered as, in a batch of this epoch. Where it
// doesn't translate, there are no records, and the znodes are those of the metadata.
fn translated_amounts(
    alloc: Global,
    tree: &Tree,
    image: &Image,
    epoch: i32,
) -> Result<(usize, Amount), NoMemory>
    ensures records { IfOk result (λ made. made.0 ≡ translated_count (translate (migrated_rows tree.now))) }
    ensures znodes { IfOk result (λ made. made.1 ≡ amount_of_all (final_znodes_of false image.now epoch (translate (migrated_rows tree.now)))) }
{
    match translate(alloc, &tree.migrated_rows()?) {
        Ok(records) => Ok((records.len(), records_amount(alloc, epoch, &records)?)),
        Err(ReadFault::Untranslatable { .. }) => Ok((0, rendered_amount(alloc, image)?)),
        Err(ReadFault::NoMemory) => Err(NoMemory),
    }
}

// How many records a turn may append, and the znodes that it ends with, where these are the metadata at the log's end.
fn final_amounts(
    alloc: Global,
    tree: &Tree,
    image: &Image,
    epoch: i32,
) -> Result<(usize, Amount), NoMemory>
    ensures records { IfOk result (λ made. made.0 ≡ (if is_migrated_state image.now.state then 0 else translated_count (translate (migrated_rows tree.now)))) }
    ensures znodes { IfOk result (λ made. made.1 ≡ amount_of_all (final_znodes_of (is_migrated_state image.now.state) image.now epoch (translate (migrated_rows tree.now)))) }
{
    if image.state() >= MIGRATION {
        Ok((0, rendered_amount(alloc, image)?))
    } else {
        translated_amounts(alloc, tree, image, epoch)
    }
}

/// What a turn starts from, as far as the bound on its steps needs it: the tree, the driver's epoch, and what may remain to be
/// written. The bound itself renders or translates the whole cluster, so it is computed by the turn that comes near it.
#[derive(Drop)]
pub struct TurnStart {
    tree: Tree,
    epoch: i32,
    remaining: Amount,
}

impl Model for TurnStart {
    ghost use Rattle.kz_world_parts.specs.Starts.{TurnStart as Start};

    ghost Value = { Start };

    ghost view = { λ s. record { tree = s.tree; epoch = s.epoch; remaining = s.remaining } };
}

impl TurnStart {
    /// What a turn of a driver starts from, where the log isn't down. The tree's rows are shared, not copied. A resync that has no
    /// operations yet reads the log, and renders its target; nothing else is rendered.
    pub fn new<L: MetaLog>(
        alloc: Global,
        tree: &Tree,
        log: &mut L,
        driver: &Driver,
    ) -> Result<TurnStart, NoMemory>
        requires { (L.disk log.old).down ≡ false }
        ensures ok { IfOk result (λ start. (ids : List ℤ) → start ≡ start_of (shared_of tree.now (L.log log.old) ids) driver.now) }
        ensures same { L.log log.new ≡ L.log log.old }
        ensures disk { L.disk log.new ≡ L.disk log.old }
    {
        let remaining = remaining_amount(alloc, log, driver)?;
        Ok(TurnStart {
            tree: tree.copy(alloc)?,
            epoch: epoch_or_zero(driver.epoch()),
            remaining,
        })
    }

    /// How many steps the turn may have at least, whatever the metadata at the end of the log is. It looks at each znode once; nothing
    /// is translated or rendered.
    #[tactic(auto, using(crate::proofs::Least::least_of_all))]
    pub fn least_steps(&self) -> u128
        ensures least { (image : ImageValue) → result ≤ most_from self.now image }
        ensures some { 20 ≤ result }
    {
        let znodes = amount_of_area(&self.tree);
        most_steps(&znodes, 0, &Amount::none(), &self.remaining)
    }

    /// The most steps of the turn, where these are the metadata at the end of the log before its first step.
    pub fn most_steps(&self, alloc: Global, image: &Image) -> Result<u128, NoMemory>
        ensures { IfOk result (λ most. most ≡ most_from self.now image.now) }
    {
        let znodes = amount_of_area(&self.tree);
        let (records, rendered) = final_amounts(alloc, &self.tree, image, self.epoch)?;
        Ok(most_steps(&znodes, records, &rendered, &self.remaining))
    }
}

/// The most steps of a turn of a driver, where the log isn't down and its metadata at the end is told.
pub fn work<L: MetaLog>(
    alloc: Global,
    tree: &Tree,
    image: &Image,
    log: &mut L,
    driver: &Driver,
) -> Result<u128, NoMemory>
    requires image { image.now ≡ image_of (L.log log.old) }
    requires up { (L.disk log.old).down ≡ false }
    ensures ok { IfOk result (λ most. (ids : List ℤ) → most ≡ work (shared_of tree.now (L.log log.old) ids) driver.now) }
    ensures same { L.log log.new ≡ L.log log.old }
    ensures disk { L.disk log.new ≡ L.disk log.old }
{
    let start = TurnStart::new(alloc, tree, log, driver)?;
    match start.most_steps(alloc, image) {
        Ok(most) => Ok(most),
        Err(NoMemory) => Err(NoMemory),
    }
}
