//! The world of a run, as a machine.
ghost use Rattle.kz_world.specs.Worlds.{plain_world};
ghost use Rattle.kz_world.specs.EventDisks.{disks_in};

use kz_log::MetaLog;
use kz_session::ZSessions;
use kz_stream::Machine;
use kz_types::{Answer, Event, NoMemory};
use kz_world::World;

/// A world over two stores.
#[derive(Drop)]
pub(crate) struct Replayer<T: ZSessions, L: MetaLog> {
    pub(crate) world: World<T, L>,
}

impl<T: ZSessions, L: MetaLog> Machine for Replayer<T, L> {
    ghost world = { λ r. plain_world T.tree L.log r.world };

    ghost disks = { λ r. disks_in T.disk L.disk r.world };

    ghost tree_left = { λ r found. T.left r.world.tree found };

    ghost log_left = { λ r found. L.left r.world.log found };

    ghost settled = { λ r up. (T.settled r.world.tree up.tree, L.settled r.world.log up.log) };

    fn event(&mut self, event: &Event) -> Answer {
        self.world.event(event)
    }

    fn zxid(&self) -> i64 {
        self.world.zxid()
    }

    fn end(&self) -> i64 {
        self.world.end()
    }

    fn recorded(&self) -> Result<Option<i64>, NoMemory> {
        match self.world.recorded()? {
            Some(told) => Ok(Some(told.offset)),
            None => Ok(None),
        }
    }
}
