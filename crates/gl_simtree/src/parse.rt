//! Paths read as nodes, a part at a time.
ghost use Rattle.std.specs.Prelude.{◌≡◌, Some, IfSome, IsTrue, option_copied};
ghost use Rattle.gl_simtree.specs.Cuts.{before_slash, behind_slash};
ghost use Rattle.gl_simtree.specs.Forms.{is_device, is_bank, device_name, bank_name};
ghost use Rattle.gl_simtree.specs.Formed.{IsFormedNode};
ghost use Rattle.gl_simtree.specs.Nodes.{line_number, in_hog, in_line, of_line, in_bank, of_bank, in_device, of_device, node_at};

use crate::cut::cut;
use crate::form;
use crate::node::{Directory, File, Node};
use gl_base::{Name, Path, read_plain_decimal};

/// The node that a path names, if it names one.
pub fn node_at(path: &Path) -> Option<Node>
    ensures node { result ≡ node_at path.now }
    ensures formed { IfSome result IsFormedNode }
{
    let (part, rest) = cut(path.as_bytes());
    match device_name(part) {
        Some(device) => of_device(&device, rest),
        None => None,
    }
}

/// The name of a device, where a part of a path is one.
pub(crate) fn device_name(part: &[u8]) -> Option<Name>
    ensures name { result ≡ device_name part.now }
    ensures formed { IfSome result (λ name. IsTrue (is_device name)) }
{
    if form::is_device(part) {
        Some(Name::filled(part))
    } else {
        None
    }
}

fn bank_name(part: &[u8]) -> Option<Name>
    ensures name { result ≡ bank_name part.now }
    ensures formed { IfSome result (λ name. IsTrue (is_bank name)) }
{
    if form::is_bank(part) {
        Some(Name::filled(part))
    } else {
        None
    }
}

/// The number N of `lineN`: a decimal of 1 to 4 digits without a leading zero.
fn line_number(part: &[u8]) -> Option<u32>
    ensures { result ≡ line_number part.now }
{
    if part.starts_with(b"line") && part.len() <= 8 {
        read_plain_decimal(&part[4..]).map(|line| line as u32)
    } else {
        None
    }
}

fn of_device(device: &Name, rest: Option<&[u8]>) -> Option<Node>
    requires { IsTrue (is_device device.now) }
    ensures node { result ≡ of_device (Some device.now) (option_copied rest.entry) }
    ensures formed { IfSome result IsFormedNode }
{
    match rest {
        None => Some(Node::Directory(Directory::Device { device: *device })),
        Some(path) => in_device(device, path),
    }
}

fn in_device(device: &Name, path: &[u8]) -> Option<Node>
    requires { IsTrue (is_device device.now) }
    ensures node { result ≡ in_device device.now path.now }
    ensures formed { IfSome result IsFormedNode }
{
    if path == b"live".as_slice() {
        return Some(Node::File(Directory::Device { device: *device }, File::Live));
    }
    let (part, rest) = cut(path);
    match bank_name(part) {
        Some(bank) => of_bank(device, &bank, rest),
        None => None,
    }
}

fn of_bank(device: &Name, bank: &Name, rest: Option<&[u8]>) -> Option<Node>
    requires device { IsTrue (is_device device.now) }
    requires bank { IsTrue (is_bank bank.now) }
    ensures node { result ≡ of_bank device.now (Some bank.now) (option_copied rest.entry) }
    ensures formed { IfSome result IsFormedNode }
{
    match rest {
        None => Some(Node::Directory(Directory::Bank {
            device: *device,
            bank: *bank,
        })),
        Some(path) => in_bank(device, bank, path),
    }
}

fn in_bank(device: &Name, bank: &Name, path: &[u8]) -> Option<Node>
    requires device { IsTrue (is_device device.now) }
    requires bank { IsTrue (is_bank bank.now) }
    ensures node { result ≡ in_bank device.now bank.now path.now }
    ensures formed { IfSome result IsFormedNode }
{
    let directory = Directory::Bank {
        device: *device,
        bank: *bank,
    };
    if path == b"chip_name".as_slice() {
        return Some(Node::File(directory, File::ChipName));
    }
    if path == b"num_lines".as_slice() {
        return Some(Node::File(directory, File::NumLines));
    }
    if path == b"label".as_slice() {
        return Some(Node::File(directory, File::Label));
    }
    let (part, rest) = cut(path);
    let line = line_number(part)?;
    of_line(device, bank, line, rest)
}

fn of_line(device: &Name, bank: &Name, line: u32, rest: Option<&[u8]>) -> Option<Node>
    requires device { IsTrue (is_device device.now) }
    requires bank { IsTrue (is_bank bank.now) }
    ensures node { result ≡ of_line device.now bank.now (Some line) (option_copied rest.entry) }
    ensures formed { IfSome result IsFormedNode }
{
    match rest {
        None => Some(Node::Directory(Directory::Line {
            device: *device,
            bank: *bank,
            line,
        })),
        Some(path) => in_line(device, bank, line, path),
    }
}

fn in_line(device: &Name, bank: &Name, line: u32, path: &[u8]) -> Option<Node>
    requires device { IsTrue (is_device device.now) }
    requires bank { IsTrue (is_bank bank.now) }
    ensures node { result ≡ in_line device.now bank.now line (before_slash path.now) (behind_slash path.now) }
    ensures formed { IfSome result IsFormedNode }
{
    match cut(path) {
        (part, None) if part == b"name".as_slice() => Some(Node::File(
            Directory::Line {
                device: *device,
                bank: *bank,
                line,
            },
            File::LineName,
        )),
        (part, None) if part == b"hog".as_slice() => Some(Node::Directory(Directory::Hog {
            device: *device,
            bank: *bank,
            line,
        })),
        (part, Some(rest)) if part == b"hog".as_slice() => in_hog(device, bank, line, rest),
        _ => None,
    }
}

fn in_hog(device: &Name, bank: &Name, line: u32, path: &[u8]) -> Option<Node>
    requires device { IsTrue (is_device device.now) }
    requires bank { IsTrue (is_bank bank.now) }
    ensures node { result ≡ in_hog device.now bank.now line path.now }
    ensures formed { IfSome result IsFormedNode }
{
    let directory = Directory::Hog {
        device: *device,
        bank: *bank,
        line,
    };
    if path == b"name".as_slice() {
        return Some(Node::File(directory, File::HogName));
    }
    if path == b"direction".as_slice() {
        return Some(Node::File(directory, File::Direction));
    }
    None
}
