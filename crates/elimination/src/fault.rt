// Why a call on a board breaks off.
use session_rules::LogFault;

/// Why a call on a board breaks off: its log refused a step, or memory was wanting.
#[derive(Clone, Copy, Debug, PartialEq, Eq)]
pub enum BoardFault {
    Log(LogFault),
    Memory,
}
