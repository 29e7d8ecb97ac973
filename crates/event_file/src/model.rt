// The lines of a model's text.
ghost use Rattle.std.specs.Prelude.{◌≡◌, ◌++◌, ◌∷◌, ◌<◌, OnOk, codes, length, map, string_bytes};
ghost use Rattle.std.specs.Fmt.{decimal};
ghost use Rattle.frp_tree.specs.Tree.{behaviour_of, decl_of, output_of, program_tree_of};
ghost use Rattle.map_file.specs.MapText.{line};
ghost use Rattle.efrp_meaning.specs.Decls.{is_reactive, reactive_decls};
ghost use Rattle.efrp_meaning.specs.Values.{number_of};
ghost use Rattle.efrp_types.specs.Numbers.{event_name};
ghost use Rattle.event_file.specs.Model.{reaction_lines, values_in};
ghost use Rattle.event_file.specs.Written.{named_values, port_line, port_lines, value_field};

use efrp_types::Typed;
use frp_tree::{Behaviour, Decl, Event, Output, Text, Value};
use std::alloc::AllocError;

// Whether it has a state.
fn is_reactive(behaviour: &Behaviour) -> bool
    ensures { result ≡ is_reactive (behaviour_of behaviour.now) }
{
    match behaviour {
        Behaviour::Reactive { .. } => true,
        _ => false,
    }
}

// A value as a number: a bool is 0 or 1.
fn number_of(value: Value) -> u16
    ensures { result ≡ number_of value }
{
    match value {
        Value::Bool(truth) => u16::from(truth),
        Value::U8(n) => u16::from(n),
        Value::U16(n) => n,
    }
}

// Adds a name and its value, after a space.
fn add_value(text: &mut String, name: &Text, value: Value) -> Result<(), AllocError>
    ensures { OnOk result (string_bytes text.new ≡ string_bytes text.old ++ (codes " " ++ value_field name.now (number_of value))) }
{
    let name = name.as_str();
    let number = number_of(value);
    write!(text, " {name}={number}")
}

// Adds the reactive definitions' names, each with its value and after a space.
fn add_values(text: &mut String, decls: &[Decl], values: &[Value]) -> Result<(), AllocError>
    ensures { OnOk result (string_bytes text.new ≡ string_bytes text.old ++ named_values (map decl_of decls.now) (map number_of values.now)) }
{
    let mut rest = values;
    for d in decls {
        if is_reactive(&d.behaviour) {
            let [value, more @ ..] = rest else {
                return Ok(());
            };
            add_value(text, &d.name, *value)?;
            rest = more;
        }
    }
    Ok(())
}

// Adds these, and the end of the line.
fn end_with_values(text: &mut String, decls: &[Decl], values: &[Value]) -> Result<(), AllocError>
    ensures { OnOk result (string_bytes text.new ≡ string_bytes text.old ++ (named_values (map decl_of decls.now) (map number_of values.now) ++ codes "\n")) }
{
    add_values(text, decls, values)?;
    text.push_str("\n")
}

/// Adds the first line: `init` and the reactive definitions' names, each with its first value in decimal. A bool is 0
/// or 1. There has to be a value for each reactive definition, in declaration order. An `Err` is out of memory.
pub fn add_init(text: &mut String, t: &Typed, values: &[Value]) -> Result<(), AllocError>
    requires { length values.now ≡ length (reactive_decls (program_tree_of t.now.program)) }
    ensures { OnOk result (string_bytes text.new ≡ string_bytes text.old
        ++ line (codes "init" ∷ values_in (program_tree_of t.now.program) (map number_of values.now))) }
{
    text.push_str("init")?;
    end_with_values(text, t.program().decls.as_slice(), values)
}

// Adds what is put on a port.
#[tactic(auto, using(text_parts::proofs::DigitLaws::hex2_written))]
fn add_port(text: &mut String, port: &Text, byte: u8) -> Result<(), AllocError>
    ensures { OnOk result (string_bytes text.new ≡ string_bytes text.old ++ port_line port.now byte) }
{
    let port = port.as_str();
    writeln!(text, "port {port} {byte:02X}")
}

// Adds what each output puts on its port.
fn add_ports(text: &mut String, outputs: &[Output], ports: &[u8]) -> Result<(), AllocError>
    ensures { OnOk result (string_bytes text.new ≡ string_bytes text.old ++ port_lines (map output_of outputs.now) ports.now) }
{
    let mut rest = ports;
    for output in outputs {
        let [byte, more @ ..] = rest else {
            return Ok(());
        };
        add_port(text, &output.port, *byte)?;
        rest = more;
    }
    Ok(())
}

// Adds the word of a commit and the event's name.
fn begin_commit(text: &mut String, event: &Event) -> Result<(), AllocError>
    ensures { OnOk result (string_bytes text.new ≡ string_bytes text.old ++ (codes "commit " ++ event.now.name)) }
{
    let name = event.name.as_str();
    write!(text, "commit {name}")
}

/// Adds the lines of a reaction to the event with this number: `port`, an output's port and its byte in two hexadecimal
/// digits, for each output in order; and then `commit`, the event's name and the reactive definitions' names, each with
/// its new value in decimal. There has to be a byte for each output, and a value for each reactive definition. An `Err`
/// is out of memory.
pub fn add_reaction(
    text: &mut String,
    t: &Typed,
    event: u8,
    values: &[Value],
    ports: &[u8],
) -> Result<(), AllocError>
    requires event { event < length t.now.program.events }
    requires values { length values.now ≡ length (reactive_decls (program_tree_of t.now.program)) }
    requires ports { length ports.now ≡ length t.now.program.outputs }
    ensures { OnOk result (string_bytes text.new ≡ string_bytes text.old
        ++ reaction_lines (program_tree_of t.now.program) (event_name (program_tree_of t.now.program) event)
        (record { state = map number_of values.now; ports = ports.now })) }
{
    let program = t.program();
    add_ports(text, program.outputs.as_slice(), ports)?;
    begin_commit(text, &program.events.as_slice()[usize::from(event)])?;
    end_with_values(text, program.decls.as_slice(), values)
}
