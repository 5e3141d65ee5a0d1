//! What holds of the histories of cells, and of a server and a node together, as contracts of functions that take nothing.

ghost use Rattle.lat_runs.specs.Heard.{ServerHearsWhole, NodeHearsWhole};
ghost use Rattle.lat_runs.specs.Laws.{ServersRun, NodesRun, TariffsRun, SwitchesRun};
ghost use Rattle.lat_runs.specs.Laws.{ServerCellsRun, NodeCellsRun, TariffCellsRun, SwitchCellsRun};
ghost use Rattle.lat_runs.specs.Laws.{ServerQueuesAreLegal, SwitchQueuesAreLegal, CellsAreAWorld, TariffCellsAreAWorld};

use lat_node::RatingRule;
use lat_tariff::{SteadyRule, Tariff};

/// Behind a history a server's machine is where the run of the history's events leads; the answers kept are those of the run,
/// and the frames that may have gone out over it are the run's.
pub fn servers_run()
    ensures { ServersRun }
{}

/// The same of a node's machine. State and answers are those of the run with whatever ratings; the frames are those of the run
/// with some ratings that the rule may have given.
pub fn nodes_run<H: RatingRule>()
    ensures { NodesRun H.may }
{}

/// The same of a node whose rule is a tariff. Where it offers the tariff's services, in their order, each rating in its frames
/// may have been given by the own rule of its service.
pub fn tariffs_run<P: SteadyRule>()
    ensures { TariffsRun P.may ⟦<Tariff<P> as RatingRule>⟧.may }
{}

/// Behind a history the server in a switch is where the run of all inner events leads, and the frames are that run's.
pub fn switches_run()
    ensures { SwitchesRun }
{}

/// So what a cell lends is a run: its core stands for where the run of its history's events leads from the opening of its
/// configuration, and the answers kept are the run's. Of a server's cell (`server`), a node's (`node`), that of a node with a
/// tariff (`tariff`), and of the server in a switch (`switch`).
pub fn cells_run<H: RatingRule, P: SteadyRule>()
    ensures server { ServerCellsRun }
    ensures node { NodeCellsRun H }
    ensures tariff { TariffCellsRun P }
    ensures switch { SwitchCellsRun }
{}

/// Whatever a server as it is made was told: each grant went to the first that waited for its service just then. The same of
/// the server in a switch.
pub fn queues_are_legal()
    ensures server { ServerQueuesAreLegal }
    ensures switch { SwitchQueuesAreLegal }
{}

/// The histories of a server and of a node, in any order in which each frame that one heard from the other's address is a young
/// one that the other had made: both states are those of one world, and this world is safe. So each law of two ends holds of two
/// cells, where the second is a node's (`node`) and where it is that of a node with a tariff (`tariff`).
pub fn cells_are_a_world<H: RatingRule, P: SteadyRule>()
    ensures node { CellsAreAWorld H }
    ensures tariff { TariffCellsAreAWorld P }
{}

/// Whatever a node sends at any event, by any rule of rating: no server answers the payload `Bad`, whoever hands it on, and
/// whenever.
pub fn server_hears_node<H: RatingRule>()
    ensures { ServerHearsWhole H.may }
{}

/// The same of what a server sends, at any node.
pub fn node_hears_server<H: RatingRule>()
    ensures { NodeHearsWhole H }
{}
