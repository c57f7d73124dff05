// The published test vectors: the input, the states after the whitening, and those after each of rounds 0 to 7.
use comparison::{Column, Row};

/// A published vector: a row for each state of a decryption, and in it a place for each column.
pub struct Vector<const N: usize> {
    pub columns: [Column; N],
    pub rows: [[u128; N]; 10],
}

/// What the ten rows show.
pub const ROWS: [Row; 10] = [
    Row::Input,
    Row::Whitening,
    Row::Round(0),
    Row::Round(1),
    Row::Round(2),
    Row::Round(3),
    Row::Round(4),
    Row::Round(5),
    Row::Round(6),
    Row::Round(7),
];

/// The vector of ChiLow-(32+τ); in its first row, both data paths begin at the ciphertext.
pub const TAGGED: Vector<4> = Vector {
    columns: [Column::Cipher32, Column::Tag, Column::Tweak, Column::Key],
    rows: [
        [
            0x0123_4567,
            0x0123_4567,
            0x0011_2233_4455_6677,
            0xFEDC_BA98_7654_3210_7766_5544_3322_1100,
        ],
        [
            0x7777_7777,
            0xFFFF_FFFF,
            0x7777_7777_7777_7777,
            0xFEDC_BA98_7654_3210_7766_5544_3322_1100,
        ],
        [
            0x28EA_F2BE,
            0xCC44_4CCC,
            0x8A31_D5C4_C3D9_16A3,
            0x8086_3D49_2770_69D7_3982_62F7_F0EA_3580,
        ],
        [
            0x74C9_1B66,
            0x82D6_1EF2,
            0xE7D3_C7CC_8E21_28C3,
            0xBA11_37AD_4E95_4016_9B62_1350_92FA_F499,
        ],
        [
            0x0CB7_60FD,
            0x9F9E_C860,
            0x2F13_34F1_CE20_8EF1,
            0x4660_767C_D7CD_20EE_AFCA_DEB2_9D06_F484,
        ],
        [
            0x941B_E07F,
            0x2A6B_6FEC,
            0x07F9_4B5D_8D2A_E616,
            0x5435_7497_D362_5CF9_71F8_FE86_980D_E74E,
        ],
        [
            0x537C_CC17,
            0x329F_D83B,
            0x057C_D8A3_4158_650C,
            0x38A9_B2E9_D343_3275_E020_2F68_DC29_6C2A,
        ],
        [
            0x0A71_0EDE,
            0xB56E_008C,
            0x1737_95E8_88B7_1A95,
            0x861B_7DCB_F0A1_F4CC_9DF3_7134_EDCE_1460,
        ],
        [
            0x4AD8_2C9B,
            0x3D3A_188F,
            0xA20C_A67F_46A9_9234,
            0x0123_4D72_53D8_186C_3C17_BB32_A6EC_F192,
        ],
        [
            0x2E75_D127,
            0x0FBC_7E64,
            0x33C4_C4CB_763F_749E,
            0x0123_4D72_53D8_186C_3C17_BB32_A6EC_F192,
        ],
    ],
};

/// The vector of ChiLow-40.
pub const BLOCK: Vector<3> = Vector {
    columns: [Column::Cipher40, Column::Tweak, Column::Key],
    rows: [
        [
            0x31_7C83_E4A7,
            0x0011_2233_4455_6677,
            0xFEDC_BA98_7654_3210_7766_5544_3322_1100,
        ],
        [
            0xA9_0AD7_D6B7,
            0x7777_7777_7777_7777,
            0xFEDC_BA98_7654_3210_7766_5544_3322_1100,
        ],
        [
            0xDF_BD12_AE8A,
            0x8A21_D5C4_C3D9_16A3,
            0x8186_3D4B_2770_69D7_3992_62F7_F0EA_3580,
        ],
        [
            0x79_1D01_3E2A,
            0xEB4B_CF84_EC33_29C2,
            0x3351_37BD_6F91_4454_9FF2_1358_B0AA_F499,
        ],
        [
            0xC7_46DF_AA6C,
            0xB58F_74AD_F0D4_02F6,
            0xDA50_2A46_6679_6686_877D_DA74_A49F_8CD4,
        ],
        [
            0x36_7A38_7031,
            0x3881_8839_3672_AFDB,
            0x978C_2DD8_9FE4_1AF5_E3D1_D0FD_A206_B258,
        ],
        [
            0x9C_4412_48D5,
            0x6C2A_E030_90DD_D441,
            0x0E76_D785_9536_F033_756F_425E_3DD2_7CEF,
        ],
        [
            0xBD_A317_53FF,
            0x01AC_3373_9BE1_4EAE,
            0xFF7E_2DD4_055C_0351_A626_C0A7_9B1A_8A29,
        ],
        [
            0xAE_8280_33F8,
            0xB221_48B5_EA79_366C,
            0x4641_3C9D_EA94_1772_F2BB_6980_7E27_E0D2,
        ],
        [
            0x00_9054_5706,
            0x5595_2186_B274_60FC,
            0x4641_3C9D_EA94_1772_F2BB_6980_7E27_E0D2,
        ],
    ],
};
