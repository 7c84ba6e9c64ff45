// Every access to a module's memory, as a value.
use module::calls::Call;

#[derive(Clone, Copy)]
pub enum Access {
    // A call as it is.
    Direct(Call),
    // An address.
    ReadRegister(u32),
    // An address and a value.
    WriteRegister(u32, u32),
}
