// Changes the board in a file, or refuses to, in one go:
//
//     boardchange FILE COMMAND..      one command
//     boardchange FILE                the commands on standard input, one a line
//     boardchange FILE found          makes FILE, with the founding board
//
// It answers each command on standard output, with 'done' or with 'refused', the number and why. What the system refuses goes to standard
// error with the name of the file, which is then as it was.
//
// Two at once: FILE.lock is made before FILE is read, and only where there is no such file. The new board is written there, reaches the
// disk, and FILE.lock then takes FILE's name. So whoever reads FILE to decide on it is alone until it has decided, and FILE is at any
// moment a whole board file. Nothing is said before that, so a 'done' stands for a change that is on the disk.
#![tactic(auto)]

mod disk;
mod given;
mod input;
mod lines;
mod lock;
mod paths;
mod protocol;
mod reasons;
mod system;

use arrayvec::ArrayString;
use board::Board;
use board::answers::Refusal;
use disk::{Trouble, open_folder, open_update, read_whole};
use given::{Asked, given};
use input::{INPUT, NoWord, WORDS, arg_count, gather};
use lines::{Quoted, complain, fail, say};
use lock::{give_up, take};
use paths::{LOCK, Names, is_link, is_lock, put_lock};
use protocol::{Begun, Unplaced, begin, put_in_place};
use std::fs::File;
use std::io;
use std::rt::Env;

// Why the new board isn't the file.
fn say_unplaced(rt: HostRuntime, names: Names, why: Unplaced) {
    match why {
        Unplaced::Lost => complain(
            rt,
            names.lock,
            ": somebody removed this lock; nothing was changed",
        ),
        Unplaced::Unwritten(why) => fail(rt, names.lock, why),
        Unplaced::Unnamed(why) => fail(rt, names.board, why),
    }
}

// What the names in the folder mean reaches the disk too.
fn sync_folder(rt: HostRuntime, name: &str, folder: &File) {
    if let Err(why) = folder.sync_all() {
        fail(rt, name, why);
        complain(rt, name, ": changed, but a loss of power may undo it");
    }
}

// The new board takes the old one's place. Answers whether it did; where not, the lock is gone and the file as it was. The lock goes
// before anything is said, here and everywhere.
fn replace(rt: HostRuntime, names: Names, mut held: File, b: &Board) -> bool {
    let folder = match open_folder(rt, names.board) {
        Ok(folder) => folder,
        Err(why) => {
            give_up(rt, held, names.lock);
            fail(rt, names.board, why);
            return false;
        }
    };
    match put_in_place(rt, names, &mut held, b) {
        Ok(()) => {
            drop(held);
            sync_folder(rt, names.board, &folder);
            true
        }
        Err(why) => {
            give_up(rt, held, names.lock);
            say_unplaced(rt, names, why);
            false
        }
    }
}

// What is wrong with a board file.
fn fault(refusal: Refusal) -> &'static str {
    match refusal {
        Refusal::BadFrame => "this is no board file, or it was cut or damaged",
        Refusal::BadRecord => "the board file is damaged: it has a bad record",
        Refusal::Loops => "in the board file some role reaches itself",
        _ => "in the board file some role has no administrator",
    }
}

// Why a file could not be read.
fn say_trouble(rt: HostRuntime, name: &str, trouble: Trouble) {
    match trouble {
        Trouble::NoFile => complain(rt, name, ": no regular file"),
        Trouble::Names => complain(
            rt,
            name,
            ": it has another name, a hard link; two names would be two locks",
        ),
        Trouble::System(why) => fail(rt, name, why),
        Trouble::Refused(refusal) => say(
            rt,
            format_args!("refused {}: {}", refusal.number(), fault(refusal)),
        ),
    }
}

// Gives the commands to the board and says nothing; where one was done, that board becomes the file. Answers whether the answers may be
// said.
fn change_file(rt: HostRuntime, names: Names, held: File, b: &mut Board, asked: Asked) -> bool {
    if given(rt, b, asked, false) {
        return replace(rt, names, held, b);
    }
    give_up(rt, held, names.lock);
    true
}

// The lock, where a board was read; where not, it goes and it is said why.
fn if_read(rt: HostRuntime, names: Names, begun: Begun) -> Option<File> {
    let Begun { held, was } = begun;
    match was {
        Ok(()) => Some(held),
        Err(trouble) => {
            give_up(rt, held, names.lock);
            say_trouble(rt, names.board, trouble);
            None
        }
    }
}

// Takes the lock, reads the board into this one, and decides the commands on it.
fn change_read(rt: HostRuntime, names: Names, b: &mut Board, asked: Asked) {
    let Some(begun) = begin(rt, names, b) else {
        return;
    };
    let Some(held) = if_read(rt, names, begun) else {
        return;
    };
    let mut copy = *b;
    if change_file(rt, names, held, &mut copy, asked) {
        // the same again, aloud: the answers are those of the same commands on the same board
        given(rt, b, asked, true);
    }
}

// Decides the commands of a text on the board in the file, and leaves the new board there.
fn change(rt: HostRuntime, names: Names, asked: Asked) {
    change_read(rt, names, &mut Board::founding(), asked);
}

// Makes the file, with the founding board, where there is none of that name.
fn found(rt: HostRuntime, names: Names) {
    let Some(held) = take(rt, names.lock) else {
        return;
    };
    match open_update(rt, names.board) {
        Ok(there) => {
            drop(there);
            give_up(rt, held, names.lock);
            complain(
                rt,
                names.board,
                ": there is such a file already, which stays as it is",
            );
            return;
        }
        Err(why) if why.kind() == io::ErrorKind::NotFound => {}
        Err(why) => {
            give_up(rt, held, names.lock);
            fail(rt, names.board, why);
            return;
        }
    }
    if replace(rt, names, held, &Board::founding()) {
        say(rt, "done");
    }
}

// The commands on standard input. They are read before the lock is made: who types them slowly keeps nobody waiting.
fn change_by_input(rt: HostRuntime, names: Names) {
    let mut space = [0u8; INPUT + 1];
    match read_whole(&mut rt.stdin(), &mut space) {
        Ok(n) if n > INPUT => say(
            rt,
            "refused 2: the input has more than 60000 bytes; nothing of it was tried",
        ),
        Ok(n) => change(rt, names, Asked::Many(&space[..n])),
        Err(why) => fail(rt, "standard input", why),
    }
}

// Argument k is no word: it is shown in quotes, cut where it is long.
fn say_no_word(rt: HostRuntime, k: usize) {
    let mut text = [0u8; WORDS];
    let n = rt.arg(k, &mut text).unwrap_or(WORDS);
    say(
        rt,
        format_args!(
            "refused 2: {} can't be taken: no word is empty or has a blank in it, and all have at most 4095 bytes",
            Quoted(&text[..n])
        ),
    );
}

// The command of the arguments.
fn change_by_words(rt: HostRuntime, names: Names) {
    let mut space = [0u8; WORDS];
    match gather(rt, &mut space) {
        Ok(n) => change(rt, names, Asked::One(&space[..n])),
        Err(NoWord(k)) => say_no_word(rt, k),
    }
}

fn asks_to_found(rt: HostRuntime) -> bool {
    let mut text = [0u8; 8];
    rt.arg(2, &mut text)
        .is_ok_and(|n| &text[..n] == b"found".as_slice())
}

fn act(rt: HostRuntime, names: Names) {
    match arg_count(rt) {
        2 => change_by_input(rt, names),
        3 if asks_to_found(rt) => found(rt, names),
        _ => change_by_words(rt, names),
    }
}

// Acts on the file of this name, where it can be a board's: neither empty, nor a lock, nor a link, nor too long to have a lock of its own.
fn act_on(rt: HostRuntime, name: &str) {
    if name.is_empty() {
        complain(rt, "FILE", ": it has no name");
        return;
    }
    if is_lock(name) {
        complain(rt, name, ": so a board's lock is called, not a board");
        return;
    }
    if is_link(rt, name) {
        complain(
            rt,
            name,
            ": a symbolic link; name the file itself, since two names would be two locks",
        );
        return;
    }
    let mut lock: ArrayString<LOCK> = ArrayString::new();
    if put_lock(&mut lock, name).is_err() {
        complain(rt, name, ": too long a name");
        return;
    }
    let names = Names {
        board: name,
        lock: lock.as_str(),
    };
    act(rt, names);
}

fn usage(rt: HostRuntime) {
    let _ = rt.stderr().write_all(
        b"usage: boardchange FILE COMMAND.. | boardchange FILE <COMMANDS | boardchange FILE found
  ACTOR add-role ROLE [a-seniors SET] [i-seniors SET] [a-juniors SET] [i-juniors SET]
  ACTOR remove-role ROLE
  ACTOR add-edge | remove-edge | change-edge SENIOR JUNIOR KIND
  ACTOR give-rights | take-rights ROLE RIGHTS
SET: roles, as 1,2,5. KIND: I, A or IA. RIGHTS: all, or names of commands, as add-role,add-edge.
",
    );
}

fn main(rt: HostRuntime) {
    if arg_count(rt) < 2 {
        usage(rt);
        return;
    }
    let mut space = [0u8; 4096];
    let Ok(n) = rt.arg(1, &mut space) else {
        complain(rt, "FILE", ": File name too long");
        return;
    };
    match str::from_utf8(&space[..n]) {
        Ok(name) => act_on(rt, name),
        Err(_) => complain(rt, "FILE", ": its name is no UTF-8"),
    }
}
