// The numbers of a port besides its bytes pending: its protocol, its time sum and its SioErr. They lie in one array, each at its name, so that a call is lent
// them where they lie. It is an array and no struct, and the protocol in it a number: C lays it out so (`include/linecard.h`), and any words are a port's.
#![tactic(auto)]

// The numbers of one port. Any words are a port's.
pub type Numbers = [u32; 3];

// The protocol, chosen at start: 1 is Modbus RTU, 2 Modbus ASCII, any other number NFO serial, for which start puts 0.
pub const PROTOCOL: usize = 0;

// The time sum, in tenths.
pub const SUM: usize = 1;

// SioErr, by its bits.
pub const SIOERR: usize = 2;

// Bit 0 of SioErr: a time-out.
pub const TIME_OUT: u32 = 1;

// Bit 1 of SioErr: a parity fault, told by the host.
pub const PARITY: u32 = 2;
