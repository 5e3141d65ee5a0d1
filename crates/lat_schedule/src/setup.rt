//! What both cores of a schedule are made of.

use lat_node::NodeConfig;
use lat_server::ServerConfig;

/// The configurations of a server and a node.
pub struct Setup {
    pub server: ServerConfig,
    pub node: NodeConfig,
}

impl Drop for Setup {
    fn drop(self) {
        let Self { server, node } = self;
    }
}
