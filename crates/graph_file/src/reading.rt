//! Reading a graph file.
ghost use Rattle.std.specs.Prelude.{◌≡◌, ◌≢◌, ◌<◌, length, IfOk, IfErr};
ghost use Rattle.graph_file.specs.Graphs.{graph_of, text_limit};

use crate::building::graph_in;
use crate::finding::fault_of;
use crate::{GraphFault, GraphSpec};
use std::alloc::Global;

/// The most bytes that a graph file may have.
pub const TEXT_LIMIT: usize = 1_048_576;

/// The graph that a text describes, or the first fault.
pub fn read_graph(alloc: Global, text: &str) -> Result<GraphSpec, GraphFault>
    ensures ok { IfOk result (λ graph. graph_of text.now ≡ Ok graph) }
    ensures refused { IfErr result (λ fault. fault ≢ GraphFault.Memory → graph_of text.now ≡ Err
        fault) }
    ensures long { text_limit < length text.now → result ≡ Err GraphFault.TooMany }
{
    if text.len() > TEXT_LIMIT {
        return Err(GraphFault::TooMany);
    }
    let table = match toml::table_from_str(alloc, text) {
        Ok(table) => table,
        Err(error) if error.is_memory() => return Err(GraphFault::Memory),
        Err(_) => return Err(GraphFault::NotToml),
    };
    if let Some(fault) = fault_of(&table) {
        return Err(fault);
    }
    match graph_in(alloc, &table) {
        Ok(graph) => Ok(graph),
        Err(_) => Err(GraphFault::Memory),
    }
}
