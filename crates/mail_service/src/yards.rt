//! Doors that a yard hands out and takes back.
ghost use Rattle.std.specs.Prelude.{◌≡◌, ◌≤◌, [], length, map, vec_capacity, IsErrOf, OnOk};
ghost use Rattle.io_edge.specs.Causes.{Rose};
ghost use Rattle.yard_stores.specs.Taken.{with_all, TellsAll};
ghost use Rattle.mail_service.specs.Entrances.{marked};
ghost use Rattle.mail_service.specs.Services.{place_of, place_at};

use crate::doors::Entrance;
use io_edge::{Protocol, Yard, YardRefusal};

/// Where a door is to be opened.
#[derive(Clone, Copy, Debug, PartialEq, Eq)]
pub struct Port {
    /// The node, from 1 on.
    pub node: u8,
    /// What is to be spoken.
    pub protocol: Protocol,
    /// The port of the machine.
    pub port: u16,
}

/// Takes a door for each port, in order. On a refusal those that were taken before are there.
pub fn open_doors<Y: Yard>(
    yard: &mut Y,
    ports: &[Port],
    entrances: &mut Vec<Entrance<Y::Door>>,
) -> Result<(), YardRefusal>
    requires none { entrances.old.items ≡ [] }
    requires room { length ports.now ≤ vec_capacity entrances.old }
    ensures each { OnOk result (map place_of entrances.new.items ≡ map place_at ports.now) }
    ensures opened { Y.opened yard.new ≡ with_all (Y.opened yard.old) (map marked entrances.new.items) }
    ensures closed { Y.closed yard.new ≡ Y.closed yard.old }
    ensures handed { Y.handed yard.new ≡ Y.handed yard.old }
    ensures returned { Y.returned yard.new ≡ Y.returned yard.old }
    ensures faults { Y.faults yard.new ≡ Y.faults yard.old }
    ensures unread { Y.unread yard.new ≡ Y.unread yard.old }
    ensures later { Y.unopened yard.old ≤ Y.unopened yard.new }
    ensures failed { IsErrOf result YardRefusal.Failed → Rose (Y.unopened yard.old) (Y.unopened yard.new) }
{
    for port in ports {
        let door = yard.door(port.node, port.protocol, port.port)?;
        entrances.push_reserved(Entrance {
            node: port.node,
            protocol: port.protocol,
            door,
            taken: 0,
        });
    }
    Ok(())
}

/// Gives all of them back, in order.
pub fn shut_all<Y: Yard>(yard: &mut Y, entrances: Vec<Entrance<Y::Door>>)
    ensures closed { TellsAll (Y.closed yard.old) (Y.closed yard.new) (map marked entrances.items) }
    ensures opened { Y.opened yard.new ≡ Y.opened yard.old }
    ensures handed { Y.handed yard.new ≡ Y.handed yard.old }
    ensures returned { Y.returned yard.new ≡ Y.returned yard.old }
    ensures faults { Y.faults yard.new ≡ Y.faults yard.old }
    ensures unread { Y.unread yard.new ≡ Y.unread yard.old }
    ensures unopened { Y.unopened yard.new ≡ Y.unopened yard.old }
{
    for entrance in entrances {
        let Entrance {
            node,
            protocol,
            door,
            ..
        } = entrance;
        yard.shut(node, protocol, door);
    }
}
