// What is asked of the system.
use std::fs::{File, Metadata, Permissions};
use std::os::unix::fs::{MetadataExt, PermissionsExt, fchown};
use std::thread;
use std::time::Duration;

// Waits a hundredth of a second.
pub(crate) fn nap(rt: HostRuntime) {
    thread::sleep(&rt, Duration::from_millis(10));
}

// Whether an open file has no name any more.
pub(crate) fn is_nameless(file: &File) -> bool {
    file.metadata().map_or(true, |of| of.nlink() == 0)
}

// A mode, without what it lets the group do where the file has another group; `same_group` is what the system answered.
fn mode_for(mode: u32, same_group: bool) -> u32 {
    if same_group {
        mode
    } else {
        mode / 64 * 64 + mode % 8
    }
}

// Gives an open file the mode of another, and its group and its owner where the system lets us give them away.
pub(crate) fn keep_mode(of: &Metadata, to: &File) {
    let same_group = fchown(to, None, Some(of.gid())).is_ok();
    let _ = fchown(to, Some(of.uid()), None);
    let _ = to.set_permissions(Permissions::from_mode(mode_for(of.mode() % 512, same_group)));
}
