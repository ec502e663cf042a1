// State memory as a whole.
ghost use Rattle.std.specs.Prelude.{◌≡◌, length};
ghost use Rattle.rules.specs.State.{fresh};
ghost use Rattle.state.specs.Layout.{size};
ghost use Rattle.state.specs.Good.{Holds};

// The fresh state, whatever stood there.
pub fn reset(state: &mut [u64])
    requires { length state.old ≡ size }
    ensures { Holds state.new fresh }
{
    state.fill(0);
}
