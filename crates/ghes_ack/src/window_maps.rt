// What knows where a block's window lies.
ghost use Rattle.std.specs.Prelude.{◌≡◌};
ghost use Rattle.ghes_ack.specs.declared.window.BlockWindow.{BlockWindow as AnyWindow};

use crate::window::BlockWindow;

/// It says where the window of a block lies.
pub trait HasWindow {
    ghost window_of: { Self → AnyWindow };

    fn window(&self) -> BlockWindow
        ensures window { result ≡ window_of self.now }
        ensures len { result.len ≡ (window_of self.now).len };
}
