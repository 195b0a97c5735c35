//! The laws can be called.

use cell_machine::laws;

#[test]
fn laws_are_calls(_rt: HostRuntime) {
    laws::division();
    laws::frames_stay();
    laws::calls_keep::<()>();
}
