// Accepted background samples and tests. A sample and a test reset change the module's counter, and no word of the block.
ghost use Rattle.std.specs.Prelude.{◌≡◌};
ghost use Rattle.block.specs.Layout.{Whole};
ghost use Rattle.channel_groups.specs.Groups.{test_after};

use channel_calls::calls::TestCall;

pub fn on_test(block: &mut [u32], call: TestCall)
    requires { Whole block.old }
    ensures { block.new ≡ test_after call block.old }
{
    match call {
        TestCall::Sample(_) => {}
        TestCall::ResetTest => {}
        TestCall::InitiateTest(result) => restart::initiated_test(block, result),
    }
}
