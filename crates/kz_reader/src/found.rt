//! Znodes of entities among all znodes.
ghost use Rattle.std.specs.Prelude.{◌≡◌, ◌++◌, IfOk, option_map, string_bytes, codes};
ghost use Rattle.kz_types.specs.Paths.{path_of};
ghost use Rattle.kz_types.specs.declared.key.EntityKey.TheVariants.{Topic, Partition};
ghost use Rattle.kz_types.specs.Order.{bytes_cmp};
ghost use Rattle.kz_types.specs.Ordered.{Rises};
ghost use Rattle.kz_types.specs.Spot.{IsSpot};
ghost use Rattle.kz_spec_data.specs.Tree.{path_of_row, row_at};
ghost use Rattle.kz_spec_data.specs.Translation.{row_of};

use crate::numbers::number_text;
use kz_sorted::{find, spot_near};
use kz_types::{NoMemory, Row};
use std::alloc::Global;

// The text of the path of a topic.
#[tactic(auto, unfolding(kz_types::specs::Paths::path_of))]
fn topic_path(alloc: Global, name: &str) -> Result<String, NoMemory>
    ensures { IfOk result (λ text. string_bytes text ≡ path_of (Topic name.now)) }
{
    Ok(format!(in alloc; "/brokers/topics/{name}")?)
}

// The text of the path of a state, where the number of its partition is a text.
fn numbered_path(alloc: Global, topic: &str, number: &str) -> Result<String, NoMemory>
    ensures { IfOk result (λ text. string_bytes text ≡ codes "/brokers/topics/" ++ (topic.now ++ (codes "/partitions/" ++ (number.now ++ codes "/state")))) }
{
    Ok(format!(in alloc; "/brokers/topics/{topic}/partitions/{number}/state")?)
}

// The text of the path of a partition's state.
#[tactic(auto, unfolding(kz_types::specs::Paths::path_of))]
fn state_path(alloc: Global, topic: &str, number: i32) -> Result<String, NoMemory>
    ensures { IfOk result (λ text. string_bytes text ≡ path_of (Partition topic.now number)) }
{
    let number = number_text(alloc, number)?;
    numbered_path(alloc, topic, &number)
}

// The znode at the path of this text.
fn row_at<'a>(rows: &'a [Row], path: &str) -> Option<&'a Row>
    requires { Rises bytes_cmp path_of_row rows.now }
    ensures { option_map (λ row. row.now) result ≡ row_at path.now rows.entry.now }
{
    find(rows, path.as_bytes())
}

/// The znode of a topic.
pub fn topic_row<'a>(
    alloc: Global,
    rows: &'a [Row],
    name: &str,
) -> Result<Option<&'a Row>, NoMemory>
    requires { Rises bytes_cmp path_of_row rows.now }
    ensures { IfOk result (λ found. option_map (λ row. row.now) found ≡ row_of (Topic name.now) rows.entry.now) }
{
    let path = topic_path(alloc, name)?;
    Ok(row_at(rows, &path))
}

/// The place of the znode of a partition's state, or, where there is none, that of the first znode with a greater path.
/// A guess of the place is tried first.
pub fn state_spot(
    alloc: Global,
    rows: &[Row],
    topic: &str,
    number: i32,
    guess: usize,
) -> Result<Result<usize, usize>, NoMemory>
    requires { Rises bytes_cmp path_of_row rows.now }
    ensures { IfOk result (IsSpot bytes_cmp path_of_row (path_of (Partition topic.now number)) rows.now) }
{
    let path = state_path(alloc, topic, number)?;
    Ok(spot_near(rows, path.as_bytes(), guess))
}
