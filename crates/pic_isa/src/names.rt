// Names of ports, and of registers that a setup may name.

ghost use Rattle.std.specs.Prelude.{◌≡◌, ◌<◌};
ghost use Rattle.pic_isa.specs.Names.{name_of_port, port_at, register_at};

/// The lowest address of the special register with this name, and None exactly where no setup may name
/// it. Addresses are those of data memory, 000h to 1FFh.
pub fn register_named(name: &str) -> Option<u16>
    ensures { result ≡ register_at name.now }
{
    let address = match name {
        "OPTION_REG" => 0x081,
        "PORTA" => 0x005,
        "PORTB" => 0x006,
        "PORTC" => 0x007,
        "PORTD" => 0x008,
        "PORTE" => 0x009,
        "TRISA" => 0x085,
        "TRISB" => 0x086,
        "TRISC" => 0x087,
        "TRISD" => 0x088,
        "TRISE" => 0x089,
        "TMR0" => 0x001,
        "TMR1L" => 0x00E,
        "TMR1H" => 0x00F,
        "T1CON" => 0x010,
        "TMR2" => 0x011,
        "T2CON" => 0x012,
        "SSPBUF" => 0x013,
        "SSPCON" => 0x014,
        "CCPR1L" => 0x015,
        "CCPR1H" => 0x016,
        "CCP1CON" => 0x017,
        "CCPR2L" => 0x01B,
        "CCPR2H" => 0x01C,
        "CCP2CON" => 0x01D,
        "ADCON0" => 0x01F,
        "ADCON1" => 0x09F,
        "SSPCON2" => 0x091,
        "PR2" => 0x092,
        "SSPADD" => 0x093,
        "SSPSTAT" => 0x094,
        _ => return None,
    };
    Some(address)
}

/// The number of the port with this name, 0 for PORTA to 4 for PORTE, and None exactly where no port has
/// it.
pub fn port_named(name: &str) -> Option<u8>
    ensures { result ≡ port_at name.now }
{
    match name {
        "PORTA" => Some(0),
        "PORTB" => Some(1),
        "PORTC" => Some(2),
        "PORTD" => Some(3),
        "PORTE" => Some(4),
        _ => None,
    }
}

/// The name of the port with this number.
pub fn port_name(port: u8) -> &'static str
    requires { port < 5 }
    ensures { result.now ≡ name_of_port port }
{
    match port {
        0 => "PORTA",
        1 => "PORTB",
        2 => "PORTC",
        3 => "PORTD",
        _ => "PORTE",
    }
}
