// Laws of mail maps: functions that do nothing, whose contracts hold of the definitions alone.
ghost use Rattle.mail_map.specs.Laws.{LatestStands, NamesAsMachine, KeepsAsMachine, InstallsAsMachine};

/// Whatever rows were told, the one of greatest version stands of each node, boot and user: the later told among equals.
pub fn the_latest_row_stands()
    ensures { LatestStands }
{}

/// The members that are named are those whom the machine of `maps_model` names.
pub fn names_as_the_machine()
    ensures { NamesAsMachine }
{}

/// An install keeps just the rows that the machine keeps.
pub fn keeps_as_the_machine()
    ensures { KeepsAsMachine }
{}

/// What an install leaves is what the machine leaves, but for the row that the node then tells anew.
pub fn installs_as_the_machine()
    ensures { InstallsAsMachine }
{}
