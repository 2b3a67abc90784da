//! All znodes of the metadata.
ghost use Rattle.std.specs.Prelude.{◌≡◌, ◌++◌, IfOk, OnOk, map};
ghost use Rattle.kz_types.specs.Order.{bytes_cmp};
ghost use Rattle.kz_types.specs.Ordered.{Rises};
ghost use Rattle.kz_spec_data.specs.Tree.{path_of_rendered};
ghost use Rattle.kz_spec_data.specs.Rendering.{config_znode, quota_znodes, entity_znodes, render};
ghost use Rattle.kz_render.specs.Apart.{topics_apart};
ghost use Rattle.kz_render.specs.Gathered.{PutAlike};

use crate::acls::push_acls;
use crate::configs::push_configs;
use crate::producer::push_producer;
use crate::quotas::push_quotas;
use crate::roots::bare_roots;
use crate::topics::push_topics;
use kz_image::Image;
use kz_sorted::put_all;
use kz_types::{NoMemory, Rendered};
use std::alloc::Global;

// Adds the znodes of topics, of brokers' configurations, of quotas and of users.
fn push_named(alloc: Global, znodes: &mut Vec<Rendered>, image: &Image) -> Result<(), NoMemory>
    ensures { OnOk result (znodes.new.items ≡ znodes.old.items ++ (topics_apart image.now.topics ++ (map config_znode image.now.broker_configs ++ quota_znodes image.now.quotas image.now.users))) }
{
    push_topics(alloc, znodes, image.topics())?;
    push_configs(alloc, znodes, image.broker_configs())?;
    push_quotas(alloc, znodes, image.quota_entries(), image.users())
}

// Adds the znodes of all entities.
fn push_entities(alloc: Global, znodes: &mut Vec<Rendered>, image: &Image) -> Result<(), NoMemory>
    ensures { OnOk result (PutAlike znodes.new.items (znodes.old.items ++ entity_znodes image.now)) }
{
    push_named(alloc, znodes, image)?;
    push_acls(alloc, znodes, image.acls())?;
    push_producer(alloc, znodes, image.next_producer())?;
    Ok(())
}

/// The znodes of the metadata, in path order: the 17 roots, and those of the entities, as a migration writes them to
/// ZooKeeper (KIP-866). `NoMemory` is the only error.
pub fn render(alloc: Global, image: &Image) -> Result<Vec<Rendered>, NoMemory>
    ensures znodes { IfOk result (λ znodes. znodes.items ≡ render image.now) }
    ensures rising { IfOk result (λ znodes. Rises bytes_cmp path_of_rendered znodes.items) }
{
    let mut znodes = bare_roots(alloc)?;
    push_entities(alloc, &mut znodes, image)?;
    let znodes = put_all(alloc, znodes)?;
    Ok(znodes)
}
