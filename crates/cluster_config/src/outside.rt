// Where the stores and the doors of the service are.
ghost use Rattle.std.specs.Prelude.{◌≡◌, Some, is_some, IfOk, IfSome, codes, string_bytes};
ghost use Rattle.toml.specs.View.{view};
ghost use Rattle.cluster_config.specs.Values.{number_at, text_at};
ghost use Rattle.cluster_config.specs.Rules.{is_within, is_text, lie_apart, have_ports};

use crate::numbers::number_at;
use crate::people::text_at;
use std::alloc::{AllocError, Global};
use toml::Value;

fn port_at(file: &Value, key: &str) -> Option<u16>
    ensures rule { is_some result ≡ is_within 1 65535 (number_at key.now (view file.now)) }
    ensures value { IfSome result (λ port. number_at key.now (view file.now) ≡ Some port) }
{
    match number_at(file, key) {
        Some(port) if 1 <= port && port <= 65535 => Some(port as u16),
        _ => None,
    }
}

// Whether so many ports from each of both on are ports, and no port is in both ranges.
fn lie_apart(nodes: u8, smtp: u16, pop: u16) -> bool
    ensures { result ≡ lie_apart (Some nodes) (Some smtp) (Some pop) }
{
    let smtp_end = u32::from(smtp) + u32::from(nodes);
    let pop_end = u32::from(pop) + u32::from(nodes);
    smtp_end <= 65536
        && pop_end <= 65536
        && (smtp_end <= u32::from(pop) || pop_end <= u32::from(smtp))
}

/// Rule 9, of the ports: those of node 1.
pub(crate) fn read_ports(file: &Value, nodes: u8) -> Option<(u16, u16)>
    requires { number_at (codes "nodes") (view file.now) ≡ Some nodes }
    ensures rule { is_some result ≡ have_ports (view file.now) }
    ensures smtp { IfSome result (λ both. number_at (codes "smtp_port") (view file.now) ≡ Some both.0) }
    ensures pop { IfSome result (λ both. number_at (codes "pop_port") (view file.now) ≡ Some both.1) }
{
    let smtp = port_at(file, "smtp_port")?;
    let pop = port_at(file, "pop_port")?;
    if lie_apart(nodes, smtp, pop) {
        Some((smtp, pop))
    } else {
        None
    }
}

/// Rule 9, of the folder.
pub(crate) fn read_folder(alloc: Global, file: &Value) -> Result<Option<String>, AllocError>
    ensures rule { IfOk result (λ folder. is_some folder ≡ is_text (text_at (codes "folder") (view file.now))) }
    ensures value { IfOk result (λ folder. IfSome folder (λ text. text_at (codes "folder") (view file.now) ≡ Some (string_bytes text))) }
{
    match text_at(file, "folder") {
        Some(text) if !text.is_empty() => Ok(Some(String::from_str(alloc, text)?)),
        _ => Ok(None),
    }
}
