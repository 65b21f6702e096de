// The CALL that CMD takes.
ghost use Rattle.std.specs.Prelude.{◌≡◌, ◌≢◌, IfOk, IfErr, Ok, Err};
ghost use Rattle.wm_command.specs.Call.{call_value};

use crate::fault::CmdFault;
use crate::is_word;
use crate::value::Value;
use std::alloc::Global;
use wm_clwords::{CallFault, Item, call_text, read_call_items};

/// The canonical text of the CALL that these items are, of at most 1,000 characters.
pub fn call_value(alloc: Global, place: u32, items: &[Item]) -> Result<Value, CmdFault>
    ensures ok { IfOk result (λ v. call_value place items.now ≡ Ok v) }
    ensures err { IfErr result (λ e. e ≢ CmdFault.NoMemory → call_value place items.now ≡ Err e) }
{
    let [item, items @ ..] = items else {
        return Err(CmdFault::NotCall(place));
    };
    if !is_word(item, b"CALL") {
        return Err(CmdFault::NotCall(place));
    }
    match read_call_items(alloc, items) {
        Ok(call) => {
            let text = call_text(alloc, &call.pgm, &call.parms)?;
            if text.len() <= 1000 {
                Ok(Value::Text(text))
            } else {
                Err(CmdFault::NotCall(place))
            }
        }
        Err(CallFault::NotCall) => Err(CmdFault::NotCall(place)),
        Err(CallFault::NoMemory) => Err(CmdFault::NoMemory),
    }
}
