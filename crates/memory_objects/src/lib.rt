//! The outside in memory: objects that play what they were given, fail at the calls that they were told, and tell what
//! they have left, hold or have logged.
#![tactic(auto)]

pub use memory_door::MemoryDoor;
pub use memory_keeper::{KeepFailure, MemoryKeeper, Remains};
pub use memory_sink::MemorySink;
pub use memory_source::MemorySource;
pub use memory_wire::MemoryWire;
pub use played_session::Play;
pub use script_clock::ScriptClock;
pub use script_dice::ScriptDice;
pub use script_link::ScriptLink;

mod entries;
mod memory_door;
mod memory_keeper;
mod memory_sink;
mod memory_source;
mod memory_wire;
mod played_session;
mod script_clock;
mod script_dice;
mod script_link;
