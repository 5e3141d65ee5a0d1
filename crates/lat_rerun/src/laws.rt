//! What holds of the rerun of records. Each function takes nothing and does nothing: its contract is the law.

ghost use Rattle.lat_rerun.specs.Laws.{ServerAgrees, SwitchAgrees, NodeAgrees};

use lat_node::RatingRule;

/// The record of each history of a server agrees with it, whatever stands behind it of a line that was cut.
pub fn server_agrees()
    ensures { ServerAgrees }
{}

/// The record of each history of a switch agrees with it.
pub fn switch_agrees()
    ensures { SwitchAgrees }
{}

/// The record of each history of a node agrees with it, whatever its rule of rating.
pub fn node_agrees<H: RatingRule>()
    ensures { NodeAgrees H }
{}
