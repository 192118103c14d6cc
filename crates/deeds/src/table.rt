// Printed by tools/print-deeds.sh from tools/deeds.txt: change that, and print it again. The check compares it with the rules.
// What is done at a place, by its state and the class of its code point: 16 rows of 16, a row for each state.
ghost use Rattle.std.specs.Prelude.{◌≡◌, ◌<◌, get_or};
ghost use Rattle.deeds.specs.Acts.{no_sign};
ghost use Rattle.deeds.specs.Deeds.{deeds, deed_count};
ghost use Rattle.deeds.specs.Numbers.{deed_number};

use crate::{Act, Deed, Fault, Question};

// There is no other place in the table than these.
#[tactic(auto, unfolding(crate::specs::Deeds::deeds))]
pub fn deed_at(place: usize) -> Deed
    requires { place < deed_count }
    ensures { deed_number result ≡ get_or deeds place no_sign }
{
    match place {
        // FREE
        0 => Deed::Write(Act::Letter), // a to j
        1 => Deed::Write(Act::Letter), // another small letter
        2 => Deed::Ask(Question::BeginsRun), // a capital
        3 => Deed::Ask(Question::BeginsNumber), // 1
        4 => Deed::Ask(Question::BeginsNumber), // another digit
        5 => Deed::Write(Act::Sign), // full stop
        6 => Deed::Write(Act::Sign), // comma
        7 => Deed::Write(Act::TheHyphen), // hyphen
        8 => Deed::Write(Act::TheDash), // U+2014
        9 => Deed::Refuse(Fault::OutsideForm), // U+2044
        10 => Deed::Refuse(Fault::OutsideForm), // º
        11 => Deed::Refuse(Fault::OutsideForm), // ª
        12 => Deed::Write(Act::Sign), // %
        13 => Deed::Write(Act::Sign), // another sign
        14 => Deed::Refuse(Fault::NoSign), // no sign
        15 => Deed::Refuse(Fault::NoSign), // no class has this number
        // CAPITALS
        16 => Deed::Write(Act::Letter), // a to j
        17 => Deed::Write(Act::Letter), // another small letter
        18 => Deed::Write(Act::CapitalOfMany), // a capital
        19 => Deed::Ask(Question::BeginsNumber), // 1
        20 => Deed::Ask(Question::BeginsNumber), // another digit
        21 => Deed::Write(Act::Sign), // full stop
        22 => Deed::Write(Act::Sign), // comma
        23 => Deed::Write(Act::TheHyphen), // hyphen
        24 => Deed::Write(Act::TheDash), // U+2014
        25 => Deed::Refuse(Fault::OutsideForm), // U+2044
        26 => Deed::Refuse(Fault::OutsideForm), // º
        27 => Deed::Refuse(Fault::OutsideForm), // ª
        28 => Deed::Write(Act::Sign), // %
        29 => Deed::Write(Act::Sign), // another sign
        30 => Deed::Refuse(Fault::NoSign), // no sign
        31 => Deed::Refuse(Fault::NoSign), // no class has this number
        // MIXED
        32 => Deed::Write(Act::Letter), // a to j
        33 => Deed::Write(Act::Letter), // another small letter
        34 => Deed::Write(Act::CapitalAlone), // a capital
        35 => Deed::Ask(Question::BeginsNumber), // 1
        36 => Deed::Ask(Question::BeginsNumber), // another digit
        37 => Deed::Write(Act::Sign), // full stop
        38 => Deed::Write(Act::Sign), // comma
        39 => Deed::Write(Act::TheHyphen), // hyphen
        40 => Deed::Write(Act::TheDash), // U+2014
        41 => Deed::Refuse(Fault::OutsideForm), // U+2044
        42 => Deed::Refuse(Fault::OutsideForm), // º
        43 => Deed::Refuse(Fault::OutsideForm), // ª
        44 => Deed::Write(Act::Sign), // %
        45 => Deed::Write(Act::Sign), // another sign
        46 => Deed::Refuse(Fault::NoSign), // no sign
        47 => Deed::Refuse(Fault::NoSign), // no class has this number
        // NUMBER
        48 => Deed::Write(Act::SeparatedLetter), // a to j
        49 => Deed::Write(Act::Letter), // another small letter
        50 => Deed::Ask(Question::BeginsRun), // a capital
        51 => Deed::Write(Act::Digit), // 1
        52 => Deed::Write(Act::Digit), // another digit
        53 => Deed::Ask(Question::NumberPoint), // full stop
        54 => Deed::Ask(Question::NumberPoint), // comma
        55 => Deed::Write(Act::TheHyphen), // hyphen
        56 => Deed::Write(Act::TheDash), // U+2014
        57 => Deed::Refuse(Fault::OutsideForm), // U+2044
        58 => Deed::Refuse(Fault::OutsideForm), // º
        59 => Deed::Refuse(Fault::OutsideForm), // ª
        60 => Deed::Write(Act::Sign), // %
        61 => Deed::Write(Act::Sign), // another sign
        62 => Deed::Refuse(Fault::NoSign), // no sign
        63 => Deed::Refuse(Fault::NoSign), // no class has this number
        // LOWERED
        64 => Deed::Write(Act::Letter), // a to j
        65 => Deed::Write(Act::Letter), // another small letter
        66 => Deed::Ask(Question::BeginsRun), // a capital
        67 => Deed::Write(Act::LowerDigit), // 1
        68 => Deed::Write(Act::LowerDigit), // another digit
        69 => Deed::Write(Act::StopOfOrdinal), // full stop
        70 => Deed::Write(Act::Sign), // comma
        71 => Deed::Write(Act::TheHyphen), // hyphen
        72 => Deed::Write(Act::TheDash), // U+2014
        73 => Deed::Write(Act::BarOfFraction), // U+2044
        74 => Deed::Refuse(Fault::OutsideForm), // º
        75 => Deed::Refuse(Fault::OutsideForm), // ª
        76 => Deed::Write(Act::Sign), // %
        77 => Deed::Write(Act::Sign), // another sign
        78 => Deed::Refuse(Fault::NoSign), // no sign
        79 => Deed::Refuse(Fault::NoSign), // no class has this number
        // ORDINAL
        80 => Deed::Write(Act::Letter), // a to j
        81 => Deed::Write(Act::Letter), // another small letter
        82 => Deed::Ask(Question::BeginsRun), // a capital
        83 => Deed::Ask(Question::BeginsNumber), // 1
        84 => Deed::Ask(Question::BeginsNumber), // another digit
        85 => Deed::Write(Act::Sign), // full stop
        86 => Deed::Write(Act::Sign), // comma
        87 => Deed::Write(Act::TheHyphen), // hyphen
        88 => Deed::Write(Act::TheDash), // U+2014
        89 => Deed::Refuse(Fault::OutsideForm), // U+2044
        90 => Deed::Write(Act::Sign), // º
        91 => Deed::Write(Act::FeminineMark), // ª
        92 => Deed::Write(Act::Sign), // %
        93 => Deed::Write(Act::Sign), // another sign
        94 => Deed::Refuse(Fault::NoSign), // no sign
        95 => Deed::Refuse(Fault::NoSign), // no class has this number
        // BARRED
        96 => Deed::Write(Act::Letter), // a to j
        97 => Deed::Write(Act::Letter), // another small letter
        98 => Deed::Ask(Question::BeginsRun), // a capital
        99 => Deed::Ask(Question::OneUnder), // 1
        100 => Deed::Write(Act::DigitUnder), // another digit
        101 => Deed::Write(Act::Sign), // full stop
        102 => Deed::Write(Act::Sign), // comma
        103 => Deed::Write(Act::TheHyphen), // hyphen
        104 => Deed::Write(Act::TheDash), // U+2014
        105 => Deed::Refuse(Fault::OutsideForm), // U+2044
        106 => Deed::Refuse(Fault::OutsideForm), // º
        107 => Deed::Refuse(Fault::OutsideForm), // ª
        108 => Deed::Write(Act::Sign), // %
        109 => Deed::Write(Act::Sign), // another sign
        110 => Deed::Refuse(Fault::NoSign), // no sign
        111 => Deed::Refuse(Fault::NoSign), // no class has this number
        // UNDER
        112 => Deed::Write(Act::SeparatedLetter), // a to j
        113 => Deed::Write(Act::Letter), // another small letter
        114 => Deed::Ask(Question::BeginsRun), // a capital
        115 => Deed::Write(Act::DigitUnder), // 1
        116 => Deed::Write(Act::DigitUnder), // another digit
        117 => Deed::Write(Act::Sign), // full stop
        118 => Deed::Write(Act::Sign), // comma
        119 => Deed::Write(Act::TheHyphen), // hyphen
        120 => Deed::Write(Act::TheDash), // U+2014
        121 => Deed::Refuse(Fault::OutsideForm), // U+2044
        122 => Deed::Refuse(Fault::OutsideForm), // º
        123 => Deed::Refuse(Fault::OutsideForm), // ª
        124 => Deed::Write(Act::Sign), // %
        125 => Deed::Write(Act::Sign), // another sign
        126 => Deed::Refuse(Fault::NoSign), // no sign
        127 => Deed::Refuse(Fault::NoSign), // no class has this number
        // GUARDED
        128 => Deed::Refuse(Fault::SharesCells), // a to j
        129 => Deed::Write(Act::Letter), // another small letter
        130 => Deed::Ask(Question::BeginsRun), // a capital
        131 => Deed::Ask(Question::BeginsNumber), // 1
        132 => Deed::Ask(Question::BeginsNumber), // another digit
        133 => Deed::Write(Act::Sign), // full stop
        134 => Deed::Write(Act::Sign), // comma
        135 => Deed::Write(Act::TheHyphen), // hyphen
        136 => Deed::Write(Act::TheDash), // U+2014
        137 => Deed::Refuse(Fault::OutsideForm), // U+2044
        138 => Deed::Refuse(Fault::OutsideForm), // º
        139 => Deed::Refuse(Fault::OutsideForm), // ª
        140 => Deed::Write(Act::Sign), // %
        141 => Deed::Write(Act::Sign), // another sign
        142 => Deed::Refuse(Fault::NoSign), // no sign
        143 => Deed::Refuse(Fault::NoSign), // no class has this number
        // HYPHENED
        144 => Deed::Write(Act::Letter), // a to j
        145 => Deed::Write(Act::Letter), // another small letter
        146 => Deed::Ask(Question::BeginsRun), // a capital
        147 => Deed::Ask(Question::BeginsNumber), // 1
        148 => Deed::Ask(Question::BeginsNumber), // another digit
        149 => Deed::Write(Act::Sign), // full stop
        150 => Deed::Write(Act::Sign), // comma
        151 => Deed::Refuse(Fault::SharesCells), // hyphen
        152 => Deed::Refuse(Fault::SharesCells), // U+2014
        153 => Deed::Refuse(Fault::OutsideForm), // U+2044
        154 => Deed::Refuse(Fault::OutsideForm), // º
        155 => Deed::Refuse(Fault::OutsideForm), // ª
        156 => Deed::Write(Act::Sign), // %
        157 => Deed::Write(Act::Sign), // another sign
        158 => Deed::Refuse(Fault::NoSign), // no sign
        159 => Deed::Refuse(Fault::NoSign), // no class has this number
        // DASHED
        160 => Deed::Write(Act::Letter), // a to j
        161 => Deed::Write(Act::Letter), // another small letter
        162 => Deed::Ask(Question::BeginsRun), // a capital
        163 => Deed::Ask(Question::BeginsNumber), // 1
        164 => Deed::Ask(Question::BeginsNumber), // another digit
        165 => Deed::Write(Act::Sign), // full stop
        166 => Deed::Write(Act::Sign), // comma
        167 => Deed::Refuse(Fault::SharesCells), // hyphen
        168 => Deed::Write(Act::TheDash), // U+2014
        169 => Deed::Refuse(Fault::OutsideForm), // U+2044
        170 => Deed::Refuse(Fault::OutsideForm), // º
        171 => Deed::Refuse(Fault::OutsideForm), // ª
        172 => Deed::Write(Act::Sign), // %
        173 => Deed::Write(Act::Sign), // another sign
        174 => Deed::Refuse(Fault::NoSign), // no sign
        175 => Deed::Refuse(Fault::NoSign), // no class has this number
        // NO_STATE_11
        176 => Deed::Refuse(Fault::NoSign), // a to j
        177 => Deed::Refuse(Fault::NoSign), // another small letter
        178 => Deed::Refuse(Fault::NoSign), // a capital
        179 => Deed::Refuse(Fault::NoSign), // 1
        180 => Deed::Refuse(Fault::NoSign), // another digit
        181 => Deed::Refuse(Fault::NoSign), // full stop
        182 => Deed::Refuse(Fault::NoSign), // comma
        183 => Deed::Refuse(Fault::NoSign), // hyphen
        184 => Deed::Refuse(Fault::NoSign), // U+2014
        185 => Deed::Refuse(Fault::NoSign), // U+2044
        186 => Deed::Refuse(Fault::NoSign), // º
        187 => Deed::Refuse(Fault::NoSign), // ª
        188 => Deed::Refuse(Fault::NoSign), // %
        189 => Deed::Refuse(Fault::NoSign), // another sign
        190 => Deed::Refuse(Fault::NoSign), // no sign
        191 => Deed::Refuse(Fault::NoSign), // no class has this number
        // NO_STATE_12
        192 => Deed::Refuse(Fault::NoSign), // a to j
        193 => Deed::Refuse(Fault::NoSign), // another small letter
        194 => Deed::Refuse(Fault::NoSign), // a capital
        195 => Deed::Refuse(Fault::NoSign), // 1
        196 => Deed::Refuse(Fault::NoSign), // another digit
        197 => Deed::Refuse(Fault::NoSign), // full stop
        198 => Deed::Refuse(Fault::NoSign), // comma
        199 => Deed::Refuse(Fault::NoSign), // hyphen
        200 => Deed::Refuse(Fault::NoSign), // U+2014
        201 => Deed::Refuse(Fault::NoSign), // U+2044
        202 => Deed::Refuse(Fault::NoSign), // º
        203 => Deed::Refuse(Fault::NoSign), // ª
        204 => Deed::Refuse(Fault::NoSign), // %
        205 => Deed::Refuse(Fault::NoSign), // another sign
        206 => Deed::Refuse(Fault::NoSign), // no sign
        207 => Deed::Refuse(Fault::NoSign), // no class has this number
        // NO_STATE_13
        208 => Deed::Refuse(Fault::NoSign), // a to j
        209 => Deed::Refuse(Fault::NoSign), // another small letter
        210 => Deed::Refuse(Fault::NoSign), // a capital
        211 => Deed::Refuse(Fault::NoSign), // 1
        212 => Deed::Refuse(Fault::NoSign), // another digit
        213 => Deed::Refuse(Fault::NoSign), // full stop
        214 => Deed::Refuse(Fault::NoSign), // comma
        215 => Deed::Refuse(Fault::NoSign), // hyphen
        216 => Deed::Refuse(Fault::NoSign), // U+2014
        217 => Deed::Refuse(Fault::NoSign), // U+2044
        218 => Deed::Refuse(Fault::NoSign), // º
        219 => Deed::Refuse(Fault::NoSign), // ª
        220 => Deed::Refuse(Fault::NoSign), // %
        221 => Deed::Refuse(Fault::NoSign), // another sign
        222 => Deed::Refuse(Fault::NoSign), // no sign
        223 => Deed::Refuse(Fault::NoSign), // no class has this number
        // NO_STATE_14
        224 => Deed::Refuse(Fault::NoSign), // a to j
        225 => Deed::Refuse(Fault::NoSign), // another small letter
        226 => Deed::Refuse(Fault::NoSign), // a capital
        227 => Deed::Refuse(Fault::NoSign), // 1
        228 => Deed::Refuse(Fault::NoSign), // another digit
        229 => Deed::Refuse(Fault::NoSign), // full stop
        230 => Deed::Refuse(Fault::NoSign), // comma
        231 => Deed::Refuse(Fault::NoSign), // hyphen
        232 => Deed::Refuse(Fault::NoSign), // U+2014
        233 => Deed::Refuse(Fault::NoSign), // U+2044
        234 => Deed::Refuse(Fault::NoSign), // º
        235 => Deed::Refuse(Fault::NoSign), // ª
        236 => Deed::Refuse(Fault::NoSign), // %
        237 => Deed::Refuse(Fault::NoSign), // another sign
        238 => Deed::Refuse(Fault::NoSign), // no sign
        239 => Deed::Refuse(Fault::NoSign), // no class has this number
        // NO_STATE_15
        240 => Deed::Refuse(Fault::NoSign), // a to j
        241 => Deed::Refuse(Fault::NoSign), // another small letter
        242 => Deed::Refuse(Fault::NoSign), // a capital
        243 => Deed::Refuse(Fault::NoSign), // 1
        244 => Deed::Refuse(Fault::NoSign), // another digit
        245 => Deed::Refuse(Fault::NoSign), // full stop
        246 => Deed::Refuse(Fault::NoSign), // comma
        247 => Deed::Refuse(Fault::NoSign), // hyphen
        248 => Deed::Refuse(Fault::NoSign), // U+2014
        249 => Deed::Refuse(Fault::NoSign), // U+2044
        250 => Deed::Refuse(Fault::NoSign), // º
        251 => Deed::Refuse(Fault::NoSign), // ª
        252 => Deed::Refuse(Fault::NoSign), // %
        253 => Deed::Refuse(Fault::NoSign), // another sign
        254 => Deed::Refuse(Fault::NoSign), // no sign
        _ => Deed::Refuse(Fault::NoSign), // no class has this number
    }
}
