// Spec 3.2, 10.2: the forms of the sheet's thirteen lines and of the sample line. `#` stands
// for a number, `~` for one that may have a minus, any other byte for itself.
ghost use Rattle.std.specs.Prelude.{◌≡◌, ◌<◌};
ghost use Rattle.rules.specs.Forms.{sample_form};
ghost use Rattle.formats.specs.Marks.{form_at};

const FORMS: [&[u8]; 14] = [
    b"(trip (uv1 # #))",
    b"(trip (uv2 # #))",
    b"(trip (ov1 # #))",
    b"(trip (ov2 # #))",
    b"(trip (uf1 # #))",
    b"(trip (uf2 # #))",
    b"(trip (of1 # #))",
    b"(trip (of2 # #))",
    b"(enter (volts # #))",
    b"(enter (hertz # #))",
    b"(enter (wait # #))",
    b"(var (# ~) (# ~) (# ~) (# ~))",
    b"(watt (# #) (# #))",
    b"(at (# # #) # # # #)",
];

// The form of this number: the sheet's lines are forms 0 to 12, and 13 is the sample line.
pub fn form(i: usize) -> &'static [u8]
    requires { i < 14 }
    ensures { result.now ≡ form_at i }
{
    FORMS[i]
}

// The sample line's form.
pub fn sample_form() -> &'static [u8]
    ensures { result.now ≡ sample_form }
{
    FORMS[13]
}
