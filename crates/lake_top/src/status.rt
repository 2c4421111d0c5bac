/// How a run ended. Its number is the exit status of the program.
#[derive(Clone, Copy, Debug, PartialEq, Eq)]
pub enum Status {
    Good = 0,
    Usage = 2,
    ReadFault = 3,
    WriteFault = 4,
    KeeperFault = 5,
    DiskFault = 6,
    Damaged = 7,
    Memory = 8,
    TooLong = 9,
}
