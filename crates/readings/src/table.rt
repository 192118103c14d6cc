// Printed by tools/print-readings.sh from tools/readings.txt: change that, and print it again. The check compares it with the rules.
// What is read at a place, by the mode and the class of the cell: 16 rows of 16.
ghost use Rattle.std.specs.Prelude.{◌≡◌, ◌<◌, get_or};
ghost use Rattle.readings.specs.Acts.{deed_number, no_sign};
ghost use Rattle.readings.specs.Deeds.{deeds, deed_count};

use crate::Deed;

// There is no other place in the table than these.
#[tactic(auto, unfolding(crate::specs::Deeds::deeds))]
pub fn deed_at(place: usize) -> Deed
    requires { place < deed_count }
    ensures { deed_number result ≡ get_or deeds place no_sign }
{
    match place {
        // FREE
        0 => Deed::NoSign, // NOTHING begins no sign
        1 => Deed::AsUsual, // LETTER_A a, 1, and ª
        2 => Deed::AsUsual, // B_TO_J b to j, and a digit
        3 => Deed::AsUsual, // LETTER_O o, and º
        4 => Deed::AsUsual, // OTHER_LETTER another letter
        5 => Deed::AsUsual, // STOP full stop
        6 => Deed::AsUsual, // COMMA comma, and a lower digit
        7 => Deed::AsUsual, // SIGN_OR_LOW a sign, and a lower digit
        8 => Deed::AsUsual, // MARK_OR_LOW a pair mark, and a lower digit
        9 => Deed::NoSign, // LOW_ONLY a lower digit
        10 => Deed::AsUsual, // SIGN a sign
        11 => Deed::HyphenOrDash, // LINE 36: a hyphen, or half of U+2014
        12 => Deed::Capital, // CAPITAL_SIGN 46
        13 => Deed::NumberSign, // FIGURE_SIGN 3456
        14 => Deed::Prefixed, // SEPARATOR 5
        15 => Deed::Prefixed, // PREFIX another cell with which longer signs begin
        // LONE
        16 => Deed::NoSign, // NOTHING begins no sign
        17 => Deed::AsUsual, // LETTER_A a, 1, and ª
        18 => Deed::AsUsual, // B_TO_J b to j, and a digit
        19 => Deed::AsUsual, // LETTER_O o, and º
        20 => Deed::AsUsual, // OTHER_LETTER another letter
        21 => Deed::AsUsual, // STOP full stop
        22 => Deed::AsUsual, // COMMA comma, and a lower digit
        23 => Deed::AsUsual, // SIGN_OR_LOW a sign, and a lower digit
        24 => Deed::AsUsual, // MARK_OR_LOW a pair mark, and a lower digit
        25 => Deed::NoSign, // LOW_ONLY a lower digit
        26 => Deed::AsUsual, // SIGN a sign
        27 => Deed::HyphenOrDash, // LINE 36: a hyphen, or half of U+2014
        28 => Deed::Capital, // CAPITAL_SIGN 46
        29 => Deed::NumberSign, // FIGURE_SIGN 3456
        30 => Deed::Prefixed, // SEPARATOR 5
        31 => Deed::Prefixed, // PREFIX another cell with which longer signs begin
        // MIXED
        32 => Deed::NoSign, // NOTHING begins no sign
        33 => Deed::AsUsual, // LETTER_A a, 1, and ª
        34 => Deed::AsUsual, // B_TO_J b to j, and a digit
        35 => Deed::AsUsual, // LETTER_O o, and º
        36 => Deed::AsUsual, // OTHER_LETTER another letter
        37 => Deed::AsUsual, // STOP full stop
        38 => Deed::AsUsual, // COMMA comma, and a lower digit
        39 => Deed::AsUsual, // SIGN_OR_LOW a sign, and a lower digit
        40 => Deed::AsUsual, // MARK_OR_LOW a pair mark, and a lower digit
        41 => Deed::NoSign, // LOW_ONLY a lower digit
        42 => Deed::AsUsual, // SIGN a sign
        43 => Deed::HyphenOrDash, // LINE 36: a hyphen, or half of U+2014
        44 => Deed::Capital, // CAPITAL_SIGN 46
        45 => Deed::NumberSign, // FIGURE_SIGN 3456
        46 => Deed::Prefixed, // SEPARATOR 5
        47 => Deed::Prefixed, // PREFIX another cell with which longer signs begin
        // WHOLE1
        48 => Deed::NoSign, // NOTHING begins no sign
        49 => Deed::CapitalOfMany, // LETTER_A a, 1, and ª
        50 => Deed::CapitalOfMany, // B_TO_J b to j, and a digit
        51 => Deed::CapitalOfMany, // LETTER_O o, and º
        52 => Deed::CapitalOfMany, // OTHER_LETTER another letter
        53 => Deed::NoSign, // STOP full stop
        54 => Deed::NoSign, // COMMA comma, and a lower digit
        55 => Deed::NoSign, // SIGN_OR_LOW a sign, and a lower digit
        56 => Deed::NoSign, // MARK_OR_LOW a pair mark, and a lower digit
        57 => Deed::NoSign, // LOW_ONLY a lower digit
        58 => Deed::NoSign, // SIGN a sign
        59 => Deed::NoSign, // LINE 36: a hyphen, or half of U+2014
        60 => Deed::NoSign, // CAPITAL_SIGN 46
        61 => Deed::NoSign, // FIGURE_SIGN 3456
        62 => Deed::NoSign, // SEPARATOR 5
        63 => Deed::NoSign, // PREFIX another cell with which longer signs begin
        // UNDER1
        64 => Deed::NoSign, // NOTHING begins no sign
        65 => Deed::DigitUnder, // LETTER_A a, 1, and ª
        66 => Deed::DigitUnder, // B_TO_J b to j, and a digit
        67 => Deed::NoSign, // LETTER_O o, and º
        68 => Deed::NoSign, // OTHER_LETTER another letter
        69 => Deed::NoSign, // STOP full stop
        70 => Deed::NoSign, // COMMA comma, and a lower digit
        71 => Deed::NoSign, // SIGN_OR_LOW a sign, and a lower digit
        72 => Deed::NoSign, // MARK_OR_LOW a pair mark, and a lower digit
        73 => Deed::NoSign, // LOW_ONLY a lower digit
        74 => Deed::NoSign, // SIGN a sign
        75 => Deed::NoSign, // LINE 36: a hyphen, or half of U+2014
        76 => Deed::NoSign, // CAPITAL_SIGN 46
        77 => Deed::NoSign, // FIGURE_SIGN 3456
        78 => Deed::NoSign, // SEPARATOR 5
        79 => Deed::NoSign, // PREFIX another cell with which longer signs begin
        // END
        80 => Deed::NoSign, // NOTHING begins no sign
        81 => Deed::NoSign, // LETTER_A a, 1, and ª
        82 => Deed::NoSign, // B_TO_J b to j, and a digit
        83 => Deed::AsUsual, // LETTER_O o, and º
        84 => Deed::AsUsual, // OTHER_LETTER another letter
        85 => Deed::AsUsual, // STOP full stop
        86 => Deed::AsUsual, // COMMA comma, and a lower digit
        87 => Deed::AsUsual, // SIGN_OR_LOW a sign, and a lower digit
        88 => Deed::AsUsual, // MARK_OR_LOW a pair mark, and a lower digit
        89 => Deed::NoSign, // LOW_ONLY a lower digit
        90 => Deed::AsUsual, // SIGN a sign
        91 => Deed::HyphenOrDash, // LINE 36: a hyphen, or half of U+2014
        92 => Deed::Capital, // CAPITAL_SIGN 46
        93 => Deed::NoSign, // FIGURE_SIGN 3456
        94 => Deed::Prefixed, // SEPARATOR 5
        95 => Deed::Prefixed, // PREFIX another cell with which longer signs begin
        // HYPHEN
        96 => Deed::NoSign, // NOTHING begins no sign
        97 => Deed::AsUsual, // LETTER_A a, 1, and ª
        98 => Deed::AsUsual, // B_TO_J b to j, and a digit
        99 => Deed::AsUsual, // LETTER_O o, and º
        100 => Deed::AsUsual, // OTHER_LETTER another letter
        101 => Deed::AsUsual, // STOP full stop
        102 => Deed::AsUsual, // COMMA comma, and a lower digit
        103 => Deed::AsUsual, // SIGN_OR_LOW a sign, and a lower digit
        104 => Deed::AsUsual, // MARK_OR_LOW a pair mark, and a lower digit
        105 => Deed::NoSign, // LOW_ONLY a lower digit
        106 => Deed::AsUsual, // SIGN a sign
        107 => Deed::NoSign, // LINE 36: a hyphen, or half of U+2014
        108 => Deed::Capital, // CAPITAL_SIGN 46
        109 => Deed::NumberSign, // FIGURE_SIGN 3456
        110 => Deed::Prefixed, // SEPARATOR 5
        111 => Deed::Prefixed, // PREFIX another cell with which longer signs begin
        // FEM
        112 => Deed::NoSign, // NOTHING begins no sign
        113 => Deed::NoSign, // LETTER_A a, 1, and ª
        114 => Deed::NoSign, // B_TO_J b to j, and a digit
        115 => Deed::AsUsual, // LETTER_O o, and º
        116 => Deed::AsUsual, // OTHER_LETTER another letter
        117 => Deed::AsUsual, // STOP full stop
        118 => Deed::AsUsual, // COMMA comma, and a lower digit
        119 => Deed::AsUsual, // SIGN_OR_LOW a sign, and a lower digit
        120 => Deed::AsUsual, // MARK_OR_LOW a pair mark, and a lower digit
        121 => Deed::NoSign, // LOW_ONLY a lower digit
        122 => Deed::AsUsual, // SIGN a sign
        123 => Deed::HyphenOrDash, // LINE 36: a hyphen, or half of U+2014
        124 => Deed::Capital, // CAPITAL_SIGN 46
        125 => Deed::NumberSign, // FIGURE_SIGN 3456
        126 => Deed::Prefixed, // SEPARATOR 5
        127 => Deed::Prefixed, // PREFIX another cell with which longer signs begin
        // PERCENT
        128 => Deed::NoSign, // NOTHING begins no sign
        129 => Deed::AsUsual, // LETTER_A a, 1, and ª
        130 => Deed::AsUsual, // B_TO_J b to j, and a digit
        131 => Deed::AsUsual, // LETTER_O o, and º
        132 => Deed::AsUsual, // OTHER_LETTER another letter
        133 => Deed::AsUsual, // STOP full stop
        134 => Deed::AsUsual, // COMMA comma, and a lower digit
        135 => Deed::AsUsual, // SIGN_OR_LOW a sign, and a lower digit
        136 => Deed::AsUsual, // MARK_OR_LOW a pair mark, and a lower digit
        137 => Deed::NoSign, // LOW_ONLY a lower digit
        138 => Deed::AsUsual, // SIGN a sign
        139 => Deed::HyphenOrDash, // LINE 36: a hyphen, or half of U+2014
        140 => Deed::Capital, // CAPITAL_SIGN 46
        141 => Deed::NumberSign, // FIGURE_SIGN 3456
        142 => Deed::Prefixed, // SEPARATOR 5
        143 => Deed::Prefixed, // PREFIX another cell with which longer signs begin
        // OWING
        144 => Deed::NoSign, // NOTHING begins no sign
        145 => Deed::AsUsual, // LETTER_A a, 1, and ª
        146 => Deed::AsUsual, // B_TO_J b to j, and a digit
        147 => Deed::AsUsual, // LETTER_O o, and º
        148 => Deed::AsUsual, // OTHER_LETTER another letter
        149 => Deed::NoSign, // STOP full stop
        150 => Deed::NoSign, // COMMA comma, and a lower digit
        151 => Deed::NoSign, // SIGN_OR_LOW a sign, and a lower digit
        152 => Deed::NoSign, // MARK_OR_LOW a pair mark, and a lower digit
        153 => Deed::NoSign, // LOW_ONLY a lower digit
        154 => Deed::NoSign, // SIGN a sign
        155 => Deed::NoSign, // LINE 36: a hyphen, or half of U+2014
        156 => Deed::Capital, // CAPITAL_SIGN 46
        157 => Deed::NoSign, // FIGURE_SIGN 3456
        158 => Deed::NoSign, // SEPARATOR 5
        159 => Deed::NoSign, // PREFIX another cell with which longer signs begin
        // DASH
        160 => Deed::NoSign, // NOTHING begins no sign
        161 => Deed::AsUsual, // LETTER_A a, 1, and ª
        162 => Deed::AsUsual, // B_TO_J b to j, and a digit
        163 => Deed::AsUsual, // LETTER_O o, and º
        164 => Deed::AsUsual, // OTHER_LETTER another letter
        165 => Deed::AsUsual, // STOP full stop
        166 => Deed::AsUsual, // COMMA comma, and a lower digit
        167 => Deed::AsUsual, // SIGN_OR_LOW a sign, and a lower digit
        168 => Deed::AsUsual, // MARK_OR_LOW a pair mark, and a lower digit
        169 => Deed::NoSign, // LOW_ONLY a lower digit
        170 => Deed::AsUsual, // SIGN a sign
        171 => Deed::DashOnly, // LINE 36: a hyphen, or half of U+2014
        172 => Deed::Capital, // CAPITAL_SIGN 46
        173 => Deed::NumberSign, // FIGURE_SIGN 3456
        174 => Deed::Prefixed, // SEPARATOR 5
        175 => Deed::Prefixed, // PREFIX another cell with which longer signs begin
        // WHOLE2
        176 => Deed::NoSign, // NOTHING begins no sign
        177 => Deed::CapitalOfMany, // LETTER_A a, 1, and ª
        178 => Deed::CapitalOfMany, // B_TO_J b to j, and a digit
        179 => Deed::CapitalOfMany, // LETTER_O o, and º
        180 => Deed::CapitalOfMany, // OTHER_LETTER another letter
        181 => Deed::AsUsual, // STOP full stop
        182 => Deed::AsUsual, // COMMA comma, and a lower digit
        183 => Deed::AsUsual, // SIGN_OR_LOW a sign, and a lower digit
        184 => Deed::AsUsual, // MARK_OR_LOW a pair mark, and a lower digit
        185 => Deed::NoSign, // LOW_ONLY a lower digit
        186 => Deed::AsUsual, // SIGN a sign
        187 => Deed::HyphenOrDash, // LINE 36: a hyphen, or half of U+2014
        188 => Deed::Capital, // CAPITAL_SIGN 46
        189 => Deed::NumberSign, // FIGURE_SIGN 3456
        190 => Deed::Prefixed, // SEPARATOR 5
        191 => Deed::Prefixed, // PREFIX another cell with which longer signs begin
        // NUM
        192 => Deed::NoSign, // NOTHING begins no sign
        193 => Deed::Digit, // LETTER_A a, 1, and ª
        194 => Deed::Digit, // B_TO_J b to j, and a digit
        195 => Deed::AsUsual, // LETTER_O o, and º
        196 => Deed::AsUsual, // OTHER_LETTER another letter
        197 => Deed::Point, // STOP full stop
        198 => Deed::Point, // COMMA comma, and a lower digit
        199 => Deed::AsUsual, // SIGN_OR_LOW a sign, and a lower digit
        200 => Deed::AsUsual, // MARK_OR_LOW a pair mark, and a lower digit
        201 => Deed::NoSign, // LOW_ONLY a lower digit
        202 => Deed::AsUsual, // SIGN a sign
        203 => Deed::HyphenOrDash, // LINE 36: a hyphen, or half of U+2014
        204 => Deed::Capital, // CAPITAL_SIGN 46
        205 => Deed::NoSign, // FIGURE_SIGN 3456
        206 => Deed::Separates, // SEPARATOR 5
        207 => Deed::Prefixed, // PREFIX another cell with which longer signs begin
        // LOW
        208 => Deed::NoSign, // NOTHING begins no sign
        209 => Deed::OneOrFeminine, // LETTER_A a, 1, and ª
        210 => Deed::Denominator, // B_TO_J b to j, and a digit
        211 => Deed::MasculineMark, // LETTER_O o, and º
        212 => Deed::NoSign, // OTHER_LETTER another letter
        213 => Deed::NoSign, // STOP full stop
        214 => Deed::LowerDigit, // COMMA comma, and a lower digit
        215 => Deed::LowerDigit, // SIGN_OR_LOW a sign, and a lower digit
        216 => Deed::LowerDigit, // MARK_OR_LOW a pair mark, and a lower digit
        217 => Deed::LowerDigit, // LOW_ONLY a lower digit
        218 => Deed::NoSign, // SIGN a sign
        219 => Deed::NoSign, // LINE 36: a hyphen, or half of U+2014
        220 => Deed::NoSign, // CAPITAL_SIGN 46
        221 => Deed::NoSign, // FIGURE_SIGN 3456
        222 => Deed::NoSign, // SEPARATOR 5
        223 => Deed::NoSign, // PREFIX another cell with which longer signs begin
        // UNDER
        224 => Deed::NoSign, // NOTHING begins no sign
        225 => Deed::DigitUnder, // LETTER_A a, 1, and ª
        226 => Deed::DigitUnder, // B_TO_J b to j, and a digit
        227 => Deed::AsUsual, // LETTER_O o, and º
        228 => Deed::AsUsual, // OTHER_LETTER another letter
        229 => Deed::AsUsual, // STOP full stop
        230 => Deed::AsUsual, // COMMA comma, and a lower digit
        231 => Deed::AsUsual, // SIGN_OR_LOW a sign, and a lower digit
        232 => Deed::AsUsual, // MARK_OR_LOW a pair mark, and a lower digit
        233 => Deed::NoSign, // LOW_ONLY a lower digit
        234 => Deed::AsUsual, // SIGN a sign
        235 => Deed::HyphenOrDash, // LINE 36: a hyphen, or half of U+2014
        236 => Deed::Capital, // CAPITAL_SIGN 46
        237 => Deed::NoSign, // FIGURE_SIGN 3456
        238 => Deed::Separates, // SEPARATOR 5
        239 => Deed::Prefixed, // PREFIX another cell with which longer signs begin
        // MID
        240 => Deed::NoSign, // NOTHING begins no sign
        241 => Deed::Digit, // LETTER_A a, 1, and ª
        242 => Deed::Digit, // B_TO_J b to j, and a digit
        243 => Deed::NoSign, // LETTER_O o, and º
        244 => Deed::NoSign, // OTHER_LETTER another letter
        245 => Deed::NoSign, // STOP full stop
        246 => Deed::NoSign, // COMMA comma, and a lower digit
        247 => Deed::NoSign, // SIGN_OR_LOW a sign, and a lower digit
        248 => Deed::NoSign, // MARK_OR_LOW a pair mark, and a lower digit
        249 => Deed::NoSign, // LOW_ONLY a lower digit
        250 => Deed::NoSign, // SIGN a sign
        251 => Deed::NoSign, // LINE 36: a hyphen, or half of U+2014
        252 => Deed::NoSign, // CAPITAL_SIGN 46
        253 => Deed::NoSign, // FIGURE_SIGN 3456
        254 => Deed::NoSign, // SEPARATOR 5
        _ => Deed::NoSign, // PREFIX another cell with which longer signs begin
    }
}
