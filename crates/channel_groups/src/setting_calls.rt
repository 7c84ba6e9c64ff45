// Accepted calls on the settings.
ghost use Rattle.std.specs.Prelude.{◌≡◌};
ghost use Rattle.block.specs.Layout.{Whole};
ghost use Rattle.channel_calls.specs.Answer.{accepted};
ghost use Rattle.channel_groups.specs.Groups.{setting_answer, setting_after};

use channel_calls::calls::{Reply, SettingCall};
use channel_calls::refusals::setting_number;

pub fn on_setting(block: &mut [u32], call: SettingCall) -> Reply
    requires { Whole block.old }
    ensures answer { accepted result ≡ setting_answer call block.old }
    ensures after { block.new ≡ setting_after call block.old }
{
    match call {
        SettingCall::WriteSetting(setting, value) => {
            settings::writing::write(block, setting_number(setting), value);
            Reply::Done
        }
        SettingCall::ReadSetting(setting) => {
            let at = setting_number(setting);
            Reply::Value(block[at])
        }
    }
}
